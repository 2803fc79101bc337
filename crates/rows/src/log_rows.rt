// The log's rows, lent as a slice of whole rows.
ghost use Rattle.std.specs.Prelude.{◌≡◌, ◌<◌, length, get_or};
ghost use Rattle.ideal.specs.Tables.{log_table};
ghost use Rattle.state.specs.Edits.{log_edited, log_place, Fits};
ghost use Rattle.rows.specs.Unfit.{unfit};

use ideal::LogRow;
use state::LogEdit;

pub fn log_row_at(rows: &[LogRow], i: usize) -> LogRow
    requires { i < length rows.now }
    ensures { result ≡ get_or rows.now i log_table.blank }
{
    rows[i]
}

// A row put, if there is one.
pub fn put_log_row(rows: &mut [LogRow], edit: Option<LogEdit>)
    requires { Fits (log_place edit) (length rows.old) }
    ensures { rows.new ≡ log_edited edit rows.old }
{
    if let Some(LogEdit { at, row }) = edit {
        rows[at] = row;
    }
}

// Whether the rows are not 64, or one from n on isn't blank. Each field is joined apart, since in one number a field waits for the
// one before, and first and length as one, so that they are read as one. No row is a way out, so that the loop is straight code.
// By index: each row is read by the function that document 01 asks for.
#[tactic(auto, unfolding(crate::specs::Unfit::unfit))]
pub fn log_unfit(rows: &[LogRow], n: usize) -> bool
    ensures { result ≡ unfit log_table n rows.now }
{
    let mut identities = 0;
    let mut tags = 0;
    let mut places = 0;
    for i in n.min(rows.len())..rows.len() {
        let row = log_row_at(rows, i);
        identities |= row.identity;
        tags |= row.tag.0;
        places |= row.first as u64 + row.length as u64 * 65536;
    }
    let counted = rows.len() == 64;
    !counted || identities | tags | places != 0
}
