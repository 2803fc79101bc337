// The box is asked whether a correction was logged.
ghost use Rattle.std.specs.Prelude.{◌≡◌};
ghost use Rattle.record.specs.Write.{write};
ghost use Rattle.ideal.specs.Box.{call_on};
ghost use Rattle.calls.specs.Buffers.{tables_in, SoundIn, SameBuffers};
ghost use Rattle.desk.specs.Desk.{check_of};
ghost use Rattle.desk.specs.Results.{check_result, check_leaves, needs_box, asked_leaves};

use crate::correcting::claim_of;
use crate::deciding::in_ranges;
use crate::{Checked, Claim, Tank};
use calls::{Buffers, call_sound};
use ideal::{BoxRecord, EscrowRow, LogRow, Profile};
use record::Fields;
use writer::write_call;

// The record of the check, by the box's own writer: as long as that of a check of two bytes.
fn check_record(claim: Claim) -> [u8; 22]
    ensures { result ≡ write (check_of claim) }
{
    let fields = Fields {
        place: 0,
        identity: claim.probe,
        offset: 0,
        length: 0,
        number: claim.tag.0,
    };
    let mut bytes = [0; 22];
    // Its bytes are room enough.
    let _ = write_call(10, fields, &[claim.low, claim.high], &mut bytes);
    bytes
}

// What a sound box answers to the check.
fn check(
    held: BoxRecord,
    log: &[LogRow],
    escrow: &[EscrowRow],
    lent: &mut Buffers,
    claim: Claim,
) -> Checked
    requires { SoundIn held log.now escrow.now lent.old }
    ensures same_buffers { SameBuffers lent.old lent.new }
    ensures leaves { check_result result (tables_in held log.now escrow.now lent.new) lent.new.output.now
        ≡ check_leaves call_on (tables_in held log.now escrow.now lent.old) lent.old.output.now claim }
{
    let record = check_record(claim);
    let change = call_sound(Profile::Full, held, log, escrow, lent, &record);
    // The answer is the C interface's: code 0 accepts.
    match change.answer.code {
        0 => Ok(change.answer.number),
        refusal => Err(refusal),
    }
}

// Whether a tank's answer depends on the box.
#[tactic(auto, unfolding(crate::specs::Results::needs_box))]
pub fn needs_box(tank: Tank) -> bool
    ensures { result ≡ needs_box tank }
{
    tank.given != 0 && in_ranges(tank.reading, tank.setpoint)
}

// What a sound box answers to a tank's check, where the tank's answer depends on it. Else the box is not asked, and this is 0.
#[tactic(auto, unfolding(crate::specs::Results::unasked))]
pub fn ask_for(
    tank: Tank,
    held: BoxRecord,
    log: &[LogRow],
    escrow: &[EscrowRow],
    lent: &mut Buffers,
) -> Checked
    requires { SoundIn held log.now escrow.now lent.old }
    ensures same_buffers { SameBuffers lent.old lent.new }
    ensures leaves { check_result result (tables_in held log.now escrow.now lent.new) lent.new.output.now
        ≡ asked_leaves call_on (tables_in held log.now escrow.now lent.old) lent.old.output.now tank }
{
    if needs_box(tank) {
        return check(held, log, escrow, lent, claim_of(tank));
    }
    Ok(0)
}
