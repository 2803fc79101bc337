// The log: its rows and value bytes.

#![tactic(auto)]

ghost use Rattle.std.specs.Prelude.{◌≡◌, true, ◌&&◌, [], ◌∷◌, ◌+◌, ◌≤◌, ◌<◌, ◌^◌, length, drop};
ghost use Rattle.ideal.specs.State.{every};
ghost use Rattle.ideal.specs.Tables.{log_table, entry_of, entries_of};
ghost use Rattle.ideal.specs.Fit.{RowsFit};
ghost use Rattle.soundness.specs.Tests.{row_sound, rows_sound, differ_before, log_row_right, same_logged, log_sound};
ghost use Rattle.soundlog.specs.Placed.{row_placed, placed_and_tagged};

use buffers::all_zero;
use fnv::{four_tags, tag_of};
use ideal::{LogRow, Used};
use pairs::in_log;

// Where a row's value ends.
fn end_of(row: LogRow) -> usize
    ensures { result ≡ row.first + row.length }
{
    row.first as usize + row.length as usize
}

fn value_of(row: LogRow, values: &[u8]) -> &[u8]
    requires { row.first + row.length ≤ length values.now }
    ensures { result.now ≡ (entry_of log_table values.now row).value }
{
    let start = row.first as usize;
    &values[start..end_of(row)]
}

// Whether a row begins at `at` and is right by itself but for its tag.
#[tactic(auto, unfolding(crate::specs::Placed::row_placed, ideal::specs::Soundness::has_identity))]
fn row_placed(row: LogRow, at: usize, size: usize) -> bool
    ensures { result ≡ row_placed size at row }
{
    row.first as usize == at && row.length <= 256 && row.identity != 0 && end_of(row) <= size
}

// Whether a row begins at `at` and is right by itself.
#[tactic(auto, using(crate::proofs::Placed::row_parts, crate::proofs::Placed::placed_within), unfolding(ideal::specs::Soundness::right_tag))]
fn row_sound(row: LogRow, at: usize, values: &[u8]) -> bool
    ensures { result ≡ row_sound log_table (log_row_right values.now) at row }
{
    row_placed(row, at, values.len()) && row.tag == tag_of(row.identity, value_of(row, values))
}

// Whether four rows are so, one after the other: placed first, and then their tags made side by side.
#[tactic(auto, using(crate::proofs::Placed::placed_within), unfolding(crate::specs::Placed::placed_and_tagged, crate::specs::Placed::rows_placed, ideal::specs::Soundness::right_tag, ideal::specs::Tables::entries_of, lists::specs::Lists::every))]
fn four_sound(a: LogRow, b: LogRow, c: LogRow, d: LogRow, at: usize, values: &[u8]) -> bool
    ensures { result ≡ placed_and_tagged values.now at (a ∷ b ∷ c ∷ d ∷ []) }
{
    let size = values.len();
    if !(row_placed(a, at, size)
        && row_placed(b, end_of(a), size)
        && row_placed(c, end_of(b), size)
        && row_placed(d, end_of(c), size))
    {
        return false;
    }
    let [w, x, y, z] = four_tags(
        [a.identity, b.identity, c.identity, d.identity],
        value_of(a, values),
        value_of(b, values),
        value_of(c, values),
        value_of(d, values),
    );
    // One by one: == on arrays divides, as the compiler reads it, and the soundness test must not (request P4).
    a.tag.0 == w && b.tag.0 == x && c.tag.0 == y && d.tag.0 == z
}

// Whether the rows are right and one after the other, from 0 to `end`. By fours while there are four, since most of the time
// goes into their tags; and by a pattern, since chunks_exact divides. Never inlined: the loops over the value bytes would run
// short of registers beside it.
#[inline(never)]
#[tactic(auto, using(crate::proofs::Placed::four_step, soundness::proofs::Rows::rows_step, soundness::proofs::Rows::rows_more, soundness::proofs::Rows::rows_ended))]
fn rows_sound(rows: &[LogRow], end: usize, values: &[u8]) -> bool
    ensures { result ≡ rows_sound log_table (log_row_right values.now) end 0 rows.now }
{
    let mut at: usize = 0;
    let mut rest = rows;
    while let [a, b, c, d, more @ ..] = rest {
        if !four_sound(*a, *b, *c, *d, at, values) {
            return false;
        }
        at = end_of(*d);
        rest = more;
    }
    for row in rest {
        if !row_sound(*row, at, values) {
            return false;
        }
        at = end_of(*row);
    }
    at == end
}

// Whether no row has the pair of one before it. Their tags are right, so that a pair has one tag: a row is compared with those
// before it only where one of these has its slot, the tag's 10 lowest bits. Never inlined, as rows_sound.
#[inline(never)]
fn pairs_differ(rows: &[LogRow], values: &[u8]) -> bool
    requires { RowsFit log_table rows.now (length rows.now) (length values.now) }
    ensures { result ≡ differ_before same_logged [] (entries_of log_table values.now rows.now) }
{
    let mut seen = [false; 1024];
    for (i, row) in rows.iter().enumerate() {
        let slot = (row.tag.0 & 1023) as usize;
        let value = value_of(*row, values);
        if seen[slot] && in_log(&rows[..i], values, row.identity, row.tag, value) {
            return false;
        }
        seen[slot] = true;
    }
    true
}

// The log of 64 rows that are known to be blank from the used ones on. No slots are cleared for one row alone.
#[tactic(auto, using(soundness::proofs::Blank::too_many_rows, soundness::proofs::Blank::too_many_bytes, soundness::proofs::Blank::parts, soundness::proofs::Differ::few_differ), unfolding(soundness::specs::Tests::log_sound))]
pub fn log_sound(rows: &[LogRow], values: &[u8], used: Used) -> bool
    requires { (length rows.now ≡ 64) × (length values.now ≡ 4096) × (every log_table.is_blank (drop used.rows rows.now) ≡ true) }
    ensures { result ≡ log_sound rows.now values.now used }
{
    if used.rows > 64 || used.bytes > 4096 {
        return false;
    }
    let rows = &rows[..used.rows as usize];
    let end = used.bytes as usize;
    all_zero(&values[end..])
        && rows_sound(rows, end, values)
        && (rows.len() < 2 || pairs_differ(rows, values))
}
