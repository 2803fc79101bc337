// The search for a pair in the log.

#![tactic(auto)]

ghost use Rattle.std.specs.Prelude.{◌≡◌, ◌+◌, ◌≤◌, length};
ghost use Rattle.ideal.specs.Step.{is_logged, logged};
ghost use Rattle.ideal.specs.Tables.{log_table, entry_of, entries_of};
ghost use Rattle.ideal.specs.Fit.{RowsFit};

use buffers::same;
use fnv::Tag;
use ideal::LogRow;

// Whether a row is this identity, tag and value. The bytes are compared last, where the tags are equal.
#[tactic(auto, unfolding(ideal::specs::Step::is_logged))]
pub fn row_is(row: LogRow, values: &[u8], identity: u64, tag: Tag, value: &[u8]) -> bool
    requires { row.first + row.length ≤ length values.now }
    ensures { result ≡ is_logged identity tag value.now (entry_of log_table values.now row) }
{
    let start = row.first as usize;
    let end = start + row.length as usize;
    row.identity == identity && row.tag == tag && same(&values[start..end], value)
}

// Whether one of the rows is this identity, tag and value.
#[tactic(auto, unfolding(ideal::specs::Step::logged, ideal::specs::Fit::RowsFit, lists::specs::Lists::any, ideal::specs::Tables::entries_of))]
pub fn in_log(rows: &[LogRow], values: &[u8], identity: u64, tag: Tag, value: &[u8]) -> bool
    requires { RowsFit log_table rows.now (length rows.now) (length values.now) }
    ensures { result ≡ logged identity tag value.now (entries_of log_table values.now rows.now) }
{
    for row in rows {
        if row_is(*row, values, identity, tag, value) {
            return true;
        }
    }
    false
}
