// Lists of tanks, with as many answers.
ghost use Rattle.std.specs.Prelude.{◌≡◌, not, map, length};
ghost use Rattle.lists.specs.Lists.{any};
ghost use Rattle.ideal.specs.Box.{call_on};
ghost use Rattle.calls.specs.Buffers.{tables_in, SoundIn, SameBuffers};
ghost use Rattle.desk.specs.Decision.{desk_by};
ghost use Rattle.desk.specs.Desk.{is_list, shift_code};
ghost use Rattle.desk.specs.Results.{desk_result, desk_leaves, list_result, list_leaves, needs_box, refused_all, shift_result, shift_leaves, code_in};

use crate::asking::{ask_for, needs_box};
use crate::deciding::desk_with;
use crate::{Tank, TankAnswer};
use calls::{Buffers, is_ready_in};
use ideal::{BoxRecord, EscrowRow, LogRow};
use rows::{escrow_unfit, log_unfit};
use state::Refusal;

// Why a list is refused whole, by its number.
#[derive(Clone, Copy, PartialEq, Eq)]
pub enum ListRefusal {
    // Not as many answers as tanks are lent: a lent buffer isn't of its size.
    AnswerCount = 15,
    // There are not 1 to 8 tanks.
    TankCount = 24,
}

// The code that a host gets for a list.
pub fn code_of(outcome: Result<(), ListRefusal>) -> u8
    ensures { result ≡ code_in outcome }
{
    match outcome {
        Ok(()) => 0,
        Err(refusal) => refusal as u8,
    }
}

#[tactic(auto, unfolding(crate::specs::Desk::is_list))]
fn is_list(tanks: usize) -> bool
    ensures { result ≡ is_list tanks }
{
    (1..=8).contains(&tanks)
}

// Whether a list is answered, by the counts of its tanks and of the lent answers.
#[tactic(auto, unfolding(crate::specs::Desk::shift_code))]
fn admit(tanks: usize, answers: usize) -> Result<(), ListRefusal>
    ensures { code_in result ≡ shift_code tanks answers }
{
    if answers != tanks {
        return Err(ListRefusal::AnswerCount);
    }
    if !is_list(tanks) {
        return Err(ListRefusal::TankCount);
    }
    Ok(())
}

// Whether the box need not be asked about any tank.
fn none_asks(tanks: &[Tank]) -> bool
    ensures { result ≡ not (any needs_box tanks.now) }
{
    !tanks.iter().any(|tank| needs_box(*tank))
}

// Every check is refused with 15: so it is where a lent buffer isn't of its size or the box isn't sound, and it does not matter
// where no tank needs the box.
fn refused_list(tanks: &[Tank], answers: &mut [TankAnswer])
    requires { length answers.old ≡ length tanks.now }
    ensures { answers.new ≡ map (desk_by refused_all) tanks.now }
{
    let refused = Err(Refusal::Unsound.number());
    // By index, here and in list_sound: a proof knows nothing of what is written through a zip with iter_mut.
    for (i, tank) in tanks.iter().enumerate() {
        answers[i] = TankAnswer::from(desk_with(*tank, refused));
    }
}

// One tank, by a sound box.
fn desk_of(
    tank: Tank,
    held: BoxRecord,
    log: &[LogRow],
    escrow: &[EscrowRow],
    lent: &mut Buffers,
) -> TankAnswer
    requires { SoundIn held log.now escrow.now lent.old }
    ensures same_buffers { SameBuffers lent.old lent.new }
    ensures leaves { desk_result result (tables_in held log.now escrow.now lent.new) lent.new.output.now
        ≡ desk_leaves call_on (tables_in held log.now escrow.now lent.old) lent.old.output.now tank }
{
    let checked = ask_for(tank, held, log, escrow, lent);
    TankAnswer::from(desk_with(tank, checked))
}

// Each tank, by a sound box.
fn list_sound(
    tanks: &[Tank],
    answers: &mut [TankAnswer],
    held: BoxRecord,
    log: &[LogRow],
    escrow: &[EscrowRow],
    lent: &mut Buffers,
)
    requires as_many { length answers.old ≡ length tanks.now }
    requires sound { SoundIn held log.now escrow.now lent.old }
    ensures same_buffers { SameBuffers lent.old lent.new }
    ensures leaves { list_result answers.new (tables_in held log.now escrow.now lent.new) lent.new.output.now
        ≡ list_leaves call_on (tables_in held log.now escrow.now lent.old) lent.old.output.now tanks.now }
{
    for (i, tank) in tanks.iter().enumerate() {
        answers[i] = desk_of(*tank, held, log, escrow, lent);
    }
}

// Each tank, over lent rows and buffers of any count. Soundness is tested once, since no check alters the box.
fn lent_list(
    tanks: &[Tank],
    answers: &mut [TankAnswer],
    held: BoxRecord,
    log: &[LogRow],
    escrow: &[EscrowRow],
    lent: &mut Buffers,
)
    requires { length answers.old ≡ length tanks.now }
    ensures same_buffers { SameBuffers lent.old lent.new }
    ensures leaves { list_result answers.new (tables_in held log.now escrow.now lent.new) lent.new.output.now
        ≡ list_leaves call_on (tables_in held log.now escrow.now lent.old) lent.old.output.now tanks.now }
{
    if none_asks(tanks)
        || log_unfit(log, held.log.rows as usize)
        || escrow_unfit(escrow, held.escrow.rows as usize)
        || !is_ready_in(held, log, escrow, lent)
    {
        refused_list(tanks, answers);
        return;
    }
    list_sound(tanks, answers, held, log, escrow, lent)
}

// Each tank of a list that is not refused whole.
pub fn shift(
    tanks: &[Tank],
    answers: &mut [TankAnswer],
    held: BoxRecord,
    log: &[LogRow],
    escrow: &[EscrowRow],
    lent: &mut Buffers,
) -> Result<(), ListRefusal>
    ensures same_buffers { SameBuffers lent.old lent.new }
    ensures leaves { shift_result (code_in result) answers.new (tables_in held log.now escrow.now lent.new) lent.new.output.now
        ≡ shift_leaves call_on (tables_in held log.now escrow.now lent.old) lent.old.output.now tanks.now answers.old }
{
    admit(tanks.len(), answers.len())?;
    lent_list(tanks, answers, held, log, escrow, lent);
    Ok(())
}
