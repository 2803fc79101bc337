// The escrow's rows, lent as a slice of whole rows.
ghost use Rattle.std.specs.Prelude.{◌≡◌, ◌<◌, length, get_or};
ghost use Rattle.ideal.specs.Tables.{escrow_table};
ghost use Rattle.state.specs.Edits.{escrow_edited, escrow_place, Fits};
ghost use Rattle.rows.specs.Unfit.{unfit};

use ideal::EscrowRow;
use state::EscrowEdit;

pub fn escrow_row_at(rows: &[EscrowRow], i: usize) -> EscrowRow
    requires { i < length rows.now }
    ensures { result ≡ get_or rows.now i escrow_table.blank }
{
    rows[i]
}

// A row put, if there is one, and the rows after it lowered.
pub fn edit_escrow(rows: &mut [EscrowRow], edit: Option<EscrowEdit>)
    requires { Fits (escrow_place edit) (length rows.old) }
    ensures { rows.new ≡ escrow_edited edit rows.old }
{
    if let Some(EscrowEdit { at, row, fall }) = edit {
        rows[at] = row;
        if fall != 0 {
            for later in &mut rows[at + 1..] {
                later.first = later.first.saturating_sub(fall);
            }
        }
    }
}

// As log_unfit.
#[tactic(auto, unfolding(crate::specs::Unfit::unfit))]
pub fn escrow_unfit(rows: &[EscrowRow], n: usize) -> bool
    ensures { result ≡ unfit escrow_table n rows.now }
{
    let mut sources = 0;
    let mut recipients = 0;
    let mut handles = 0;
    let mut places = 0;
    let mut marks = 0;
    for i in n.min(rows.len())..rows.len() {
        let row = escrow_row_at(rows, i);
        sources |= row.source;
        recipients |= row.recipient;
        handles |= row.handle.0;
        places |= row.first as u64 + row.length as u64 * 65536;
        marks |= row.mark as u64;
    }
    let counted = rows.len() == 64;
    !counted || sources | recipients | handles | places | marks != 0
}
