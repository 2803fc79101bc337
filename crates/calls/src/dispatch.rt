// The kinds, each to the function that carries it out.
ghost use Rattle.std.specs.Prelude.{◌≡◌, length};
ghost use Rattle.record.specs.Meaning.{bytes_in, call_in, PartWithin, CallWithin};
ghost use Rattle.calls.specs.Buffers.{tables_in, SoundIn, result_in, SameBuffers};
ghost use Rattle.calls.specs.Entry.{carried_in, carried_on};
ghost use Rattle.state.specs.Edits.{unchanged, EditsBy};
ghost use Rattle.calls.specs.Alone.{Alone};

use crate::Buffers;
use attesting::{attest, check_pair};
use chain::follow_chain;
use escrow::protect;
use heap::{heap_read, heap_write};
use ideal::{BoxRecord, EscrowRow, LogRow, Profile};
use levels::own_refusal;
use record::{Call, Part};
use release::release;
use retrieval::retrieve;
use services::{create, exit_running, hand_over, report};
use shared::{shared_read, shared_write};
use state::{Answer, Change, answer_of, change_of, refuse, shown_of, unedited};

// The bytes of a bytes field.
fn bytes_of(bytes: &[u8], part: Part) -> &[u8]
    requires { PartWithin bytes.now part }
    ensures { result.now ≡ bytes_in bytes.now part }
{
    let start = part.start;
    let end = start + part.count as usize;
    &bytes[start..end]
}

// A call of a kind that alters neither the box record nor a table: it has an answer alone.
fn answer_alone(
    held: BoxRecord,
    log: &[LogRow],
    escrow: &[EscrowRow],
    lent: &mut Buffers,
    bytes: &[u8],
    called: Call,
) -> Answer
    requires sound { SoundIn held log.now escrow.now lent.old }
    requires call_within { CallWithin bytes.now called }
    requires alone { Alone called }
    ensures same_buffers { SameBuffers lent.old lent.new }
    ensures output_after { result_in log.now escrow.now (unchanged held result) lent.new
        ≡ carried_on (tables_in held log.now escrow.now lent.old) (call_in bytes.now called) lent.old.output.now }
{
    let heaps = &mut *lent.heaps;
    let shared = &mut *lent.shared;
    let log_values = &mut *lent.log_values;
    let escrow_values = &mut *lent.escrow_values;
    let output = &mut *lent.output;
    match called {
        Call::HeapWrite {
            place,
            offset,
            bytes: part,
        } => {
            let value = bytes_of(bytes, part);
            answer_of(heap_write(held, heaps, place, offset, value))
        }
        Call::HeapRead {
            place,
            offset,
            length,
        } => shown_of(heap_read(held, heaps, output, place, offset, length)),
        Call::SharedWrite {
            offset,
            bytes: part,
        } => answer_of(shared_write(shared, offset, bytes_of(bytes, part))),
        Call::SharedRead { offset, length } => {
            shown_of(shared_read(shared, output, offset, length))
        }
        Call::Check {
            identity,
            tag,
            bytes: part,
        } => {
            let value = bytes_of(bytes, part);
            answer_of(check_pair(held, log, log_values, identity, tag, value))
        }
        Call::Retrieve {
            identity,
            offset,
            handle,
        } => answer_of(retrieve(held, escrow, heaps, escrow_values, identity, offset, handle)),
        Call::Chain {
            identity,
            first,
            bytes: part,
        } => answer_of(follow_chain(
            held,
            log,
            escrow,
            log_values,
            escrow_values,
            identity,
            first,
            bytes_of(bytes, part),
        )),
        _ => report(held),
    }
}

// A call on a sound box, whoever read it: no byte of a record is used.
fn carry_out(
    held: BoxRecord,
    log: &[LogRow],
    escrow: &[EscrowRow],
    lent: &mut Buffers,
    bytes: &[u8],
    called: Call,
) -> Change
    requires sound { SoundIn held log.now escrow.now lent.old }
    requires call_within { CallWithin bytes.now called }
    ensures same_buffers { SameBuffers lent.old lent.new }
    ensures output_after { result_in log.now escrow.now result lent.new
        ≡ carried_on (tables_in held log.now escrow.now lent.old) (call_in bytes.now called) lent.old.output.now }
    ensures edits_by { EditsBy held escrow.now result.held result.edits }
{
    let heaps = &mut *lent.heaps;
    let log_values = &mut *lent.log_values;
    let escrow_values = &mut *lent.escrow_values;
    match called {
        Call::Create { place, identity } => change_of(held, create(held, place, identity)),
        Call::Exit => change_of(held, exit_running(held, heaps)),
        Call::Attest { offset, length } => {
            change_of(held, attest(held, log, heaps, log_values, offset, length))
        }
        Call::Protect {
            identity: to,
            offset,
            length,
            draw,
        } => {
            let outcome = protect(held, escrow, heaps, escrow_values, to, offset, length, draw);
            change_of(held, outcome)
        }
        Call::HandOver { place } => change_of(held, hand_over(held, place)),
        Call::Release { identity, handle } => {
            change_of(held, release(held, escrow, escrow_values, identity, handle))
        }
        _ => {
            let answer = answer_alone(held, log, escrow, lent, bytes, called);
            unedited(held, answer)
        }
    }
}

// A call in a profile on a sound box, whoever read it: what refuses it there comes before any change, and else it is
// carried out as in the full box.
pub fn carry_out_in(
    profile: Profile,
    held: BoxRecord,
    log: &[LogRow],
    escrow: &[EscrowRow],
    lent: &mut Buffers,
    bytes: &[u8],
    called: Call,
) -> Change
    requires sound { SoundIn held log.now escrow.now lent.old }
    requires call_within { CallWithin bytes.now called }
    ensures same_buffers { SameBuffers lent.old lent.new }
    ensures output_after { result_in log.now escrow.now result lent.new
        ≡ carried_in profile (tables_in held log.now escrow.now lent.old) (call_in bytes.now called) lent.old.output.now }
    ensures edits_by { EditsBy held escrow.now result.held result.edits }
{
    let heaps = &mut *lent.heaps;
    let log_values = &mut *lent.log_values;
    match own_refusal(profile, held, log, heaps, log_values, called) {
        Ok(()) => carry_out(held, log, escrow, lent, bytes, called),
        Err(refusal) => refuse(held, refusal.number()),
    }
}
