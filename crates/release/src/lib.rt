// Release: a value given up by its recipient (document 02, P8).

#![tactic(auto)]

ghost use Rattle.std.specs.Prelude.{◌≡◌, ◌≤◌, length};
ghost use Rattle.ideal.specs.Tables.{escrow_table};
ghost use Rattle.state.specs.Edits.{stored};
ghost use Rattle.state.specs.Parts.{TableFits};
ghost use Rattle.state.specs.Refusals.{change_in};
ghost use Rattle.release.specs.Narrow.{UsedFits, spent_at, release_on};

use buffers::take_out;
use ideal::{BoxRecord, EscrowRow, Used};
use record::Handle;
use retrieval::find_row;
use state::{Change, Edits, EscrowEdit, Refusal, accepted, running_place};

// The row at an index spent: the bytes used fall by its length, and so do the first bytes of the rows after it. The row stays.
#[tactic(auto, unfolding(ideal::specs::OneCall::spent_row))]
fn spend(held: BoxRecord, at: usize, row: EscrowRow) -> Change
    requires { row.length ≤ held.escrow.bytes }
    ensures { result ≡ spent_at held at row }
{
    let fall = row.length;
    let used = held.escrow;
    let spent = EscrowRow {
        length: 0,
        mark: 1,
        ..row
    };
    let escrow = EscrowEdit {
        at,
        row: spent,
        fall,
    };
    Change {
        held: BoxRecord {
            escrow: Used {
                bytes: used.bytes - fall,
                ..used
            },
            ..held
        },
        edits: Edits {
            log: None,
            escrow: Some(escrow),
        },
        answer: accepted(0),
    }
}

// The values behind the one that is given up close up, and the bytes that are freed are zero.
#[tactic(auto, using(retrieval::proofs::Search::given, retrieval::proofs::Search::not_given, crate::proofs::Steps::row_is, crate::proofs::Steps::found_fits, crate::proofs::Closed::part_long, crate::proofs::Closed::taken_out_lem), unfolding(retrieval::specs::Search::entry_found, crate::specs::Narrow::release_on, crate::specs::Narrow::release_refusal, crate::specs::Narrow::released_on, crate::specs::Narrow::given_at, state::specs::Edits::unless, state::specs::Answers::settled, ideal::specs::Step::first_holding, ideal::specs::Step::absent))]
pub fn release(
    held: BoxRecord,
    escrow: &[EscrowRow],
    values: &mut [u8],
    source: u64,
    handle: Handle,
) -> Result<Change, Refusal>
    requires { (held.running ≤ 16) × (length escrow.now ≡ 64) × TableFits escrow_table held.escrow escrow.now values.old × UsedFits held.escrow escrow.now }
    ensures { stored (change_in held result) values.new ≡ release_on held escrow.now values.old source handle }
{
    let place = running_place(held.running)?;
    if source == 0 {
        return Err(Refusal::NoIdentity);
    }
    let used = held.escrow;
    let rows = &escrow[..used.rows as usize];
    let recipient = held.identities[place];
    let Some(at) = find_row(rows, handle, source, recipient) else {
        return Err(Refusal::NotEscrowed);
    };
    let row = rows[at];
    let from = row.first as usize;
    let end = used.bytes as usize;
    take_out(&mut values[from..end], row.length as usize);
    Ok(spend(held, at, row))
}
