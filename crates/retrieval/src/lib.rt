// Retrieve: the value under a handle copied to its recipient.

#![tactic(auto)]

ghost use Rattle.std.specs.Prelude.{◌≡◌, List, ℕ, ◌≤◌, ◌<◌, length, IfSome, unwrap_or};
ghost use Rattle.ideal.specs.State.{find, position};
ghost use Rattle.ideal.specs.Step.{is_escrowed};
ghost use Rattle.ideal.specs.Tables.{escrow_table, entries_of};
ghost use Rattle.ideal.specs.Refusals.{is_row};
ghost use Rattle.state.specs.Parts.{TableFits};
ghost use Rattle.state.specs.Refusals.{answer_in};
ghost use Rattle.retrieval.specs.Search.{entry_found, sought};
ghost use Rattle.retrieval.specs.Narrow.{retrieve_answer, retrieve_heaps};

use buffers::put;
use ideal::{BoxRecord, EscrowRow};
use record::Handle;
use state::{Refusal, heap_part, running_place};

// Whether a row has this handle, source and recipient, and is unspent.
#[tactic(auto, unfolding(ideal::specs::Refusals::is_row))]
fn row_is(row: &EscrowRow, handle: Handle, source: u64, recipient: u64) -> bool
    ensures { result ≡ is_row handle source recipient row.now }
{
    row.handle == handle && row.source == source && row.recipient == recipient && row.mark == 0
}

// The first row that is unspent and has this handle, source and recipient.
pub fn find_row(rows: &[EscrowRow], handle: Handle, source: u64, recipient: u64) -> Option<usize>
    ensures found_within { IfSome result (λ i. i < length rows.now) }
    ensures by_index { (values : List ℕ) → entry_found values rows.now result ≡ sought (find (is_escrowed handle source recipient) (entries_of escrow_table values rows.now)) }
    ensures result_value { unwrap_or result (length rows.now) ≡ position (is_row handle source recipient) rows.now }
{
    rows.iter()
        .position(|row| row_is(row, handle, source, recipient))
}

// The value of the row goes into the running heap at the offset.
#[tactic(auto, using(crate::proofs::Search::given, crate::proofs::Search::not_given, crate::proofs::Steps::fits, crate::proofs::Steps::size), unfolding(crate::specs::Search::entry_found, ideal::specs::Step::value_in, ideal::specs::Step::beyond, crate::specs::Narrow::retrieve_answer, crate::specs::Narrow::retrieve_heaps, crate::specs::Narrow::retrieve_refusal, ideal::specs::Step::first_holding, state::specs::Answers::settled, state::specs::Answers::answered, ideal::specs::Step::absent))]
pub fn retrieve(
    held: BoxRecord,
    escrow: &[EscrowRow],
    heaps: &mut [u8],
    values: &[u8],
    source: u64,
    offset: u16,
    handle: Handle,
) -> Result<u64, Refusal>
    requires { (held.running ≤ 16) × (length escrow.now ≡ 64) × (length heaps.old ≡ 4096) × TableFits escrow_table held.escrow escrow.now values.now }
    ensures value { answer_in result ≡ retrieve_answer held escrow.now values.now source offset handle }
    ensures heaps_after { heaps.new ≡ retrieve_heaps held escrow.now heaps.old values.now source offset handle }
{
    let place = running_place(held.running)?;
    if source == 0 {
        return Err(Refusal::NoIdentity);
    }
    let rows = &escrow[..held.escrow.rows as usize];
    let recipient = held.identities[place];
    let Some(i) = find_row(rows, handle, source, recipient) else {
        return Err(Refusal::NotEscrowed);
    };
    let entry = &rows[i];
    let (start, _) = heap_part(place, offset, entry.length)?;
    let from = entry.first as usize;
    let until = from + entry.length as usize;
    put(&values[from..until], heaps, start);
    Ok(u64::from(entry.length))
}
