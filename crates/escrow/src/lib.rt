// Protect: a value stored for a recipient under a free handle.

#![tactic(auto)]

ghost use Rattle.std.specs.Prelude.{◌≡◌, ◌≤◌, length};
ghost use Rattle.ideal.specs.Tables.{escrow_table};
ghost use Rattle.state.specs.Counts.{Room};
ghost use Rattle.state.specs.Edits.{stored, escrow_store, more};
ghost use Rattle.state.specs.Parts.{TableFits};
ghost use Rattle.state.specs.Refusals.{change_in};
ghost use Rattle.escrow.specs.Narrow.{protect_value, protect_on};

use buffers::put;
use handles::free_handle;
use ideal::{BoxRecord, EscrowRow};
use record::{Draw, Handle};
use state::{
    Change, Edits, EscrowEdit, Refusal, accepted, heap_part, is_full, raised, running_place,
};

// One row and its value more.
// It and attesting::log_more stay two: they share `raised`, and a trait for the rest, which is fields, would be longer than both.
#[tactic(auto, unfolding(state::specs::Edits::more))]
fn escrow_more(
    held: BoxRecord,
    values: &mut [u8],
    source: u64,
    recipient: u64,
    handle: Handle,
    value: &[u8],
) -> Change
    requires { (length values.old ≡ 4096) × Room held.escrow (length value.now) }
    ensures { stored result values.new ≡ more escrow_store held values.old (record { source = source; recipient = recipient; handle = handle; mark = 0 }) value.now }
{
    let used = held.escrow;
    let size = value.len() as u16;
    put(value, values, used.bytes as usize);
    let row = EscrowRow {
        source,
        recipient,
        handle,
        first: used.bytes,
        length: size,
        mark: 0,
    };
    let escrow = EscrowEdit {
        at: used.rows as usize,
        row,
        fall: 0,
    };
    Change {
        held: BoxRecord {
            escrow: raised(used, size),
            ..held
        },
        edits: Edits {
            log: None,
            escrow: Some(escrow),
        },
        answer: accepted(handle.0),
    }
}

// A value stored under the first free handle.
#[tactic(auto, using(state::proofs::Rooms::has_room), unfolding(crate::specs::Narrow::protect_value, crate::specs::Narrow::protected_on, state::specs::Edits::unless, state::specs::Answers::settled, ideal::specs::Step::first_holding))]
fn protect_value(
    held: BoxRecord,
    escrow: &[EscrowRow],
    values: &mut [u8],
    source: u64,
    recipient: u64,
    draw: Draw,
    value: &[u8],
) -> Result<Change, Refusal>
    requires { (held.escrow.rows ≤ 64) × (length escrow.now ≡ 64) × (length values.old ≡ 4096) × (length value.now ≤ 256) }
    ensures { stored (change_in held result) values.new ≡ protect_value held escrow.now values.old source recipient draw value.now }
{
    if draw.0 >= 281474976710656 {
        return Err(Refusal::LargeDraw);
    }
    let used = held.escrow;
    if is_full(used, value.len()) {
        return Err(Refusal::EscrowFull);
    }
    let rows = &escrow[..used.rows as usize];
    let handle = free_handle(rows, value.len() as u16, draw);
    Ok(escrow_more(held, values, source, recipient, handle, value))
}

// The value is the middle part of the heaps that the running place has at the offset.
#[tactic(auto, using(ideal::proofs::Table::part_length), unfolding(crate::specs::Narrow::protect_on, crate::specs::Narrow::protect_refusal, crate::specs::Narrow::protect_value, state::specs::Edits::unless, state::specs::Answers::settled, ideal::specs::Step::first_holding, ideal::specs::Step::beyond))]
pub fn protect(
    held: BoxRecord,
    escrow: &[EscrowRow],
    heaps: &[u8],
    values: &mut [u8],
    recipient: u64,
    offset: u16,
    size: u16,
    draw: Draw,
) -> Result<Change, Refusal>
    requires { (held.running ≤ 16) × (length escrow.now ≡ 64) × (length heaps.now ≡ 4096) × TableFits escrow_table held.escrow escrow.now values.old }
    ensures { stored (change_in held result) values.new ≡ protect_on held escrow.now heaps.now values.old recipient offset size draw }
{
    let place = running_place(held.running)?;
    if recipient == 0 {
        return Err(Refusal::NoIdentity);
    }
    let (start, end) = heap_part(place, offset, size)?;
    let source = held.identities[place];
    protect_value(
        held,
        escrow,
        values,
        source,
        recipient,
        draw,
        &heaps[start..end],
    )
}
