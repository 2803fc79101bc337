// The tank desk, over the box (document 02, P6): what the exports of crate desk_c call, each the function of its name.

#![tactic(auto)]

mod asking;
mod correcting;
mod deciding;
mod list;

ghost use Rattle.std.specs.Prelude.{◌≡◌};
ghost use Rattle.ideal.specs.Box.{call_on};
ghost use Rattle.ideal.specs.Tables.{lent_tables};
ghost use Rattle.desk.specs.Results.{desk_result, desk_leaves, shift_result, shift_leaves};

use calls::Buffers;
use fnv::Tag;
use ideal::{BoxRecord, EscrowRow, LogRow};
use list::{code_of, shift};

// A tank, as a host lends it. Temperatures are in hundredths of a degree Celsius. Where given is 0 there is no correction,
// and probe, tag, low and high are not looked at; low and high are the correction's two bytes.
#[repr(C)]
#[derive(Clone, Copy)]
pub struct Tank {
    pub reading: i32,
    pub setpoint: i32,
    pub probe: u64,
    pub tag: Tag,
    pub given: u8,
    pub low: u8,
    pub high: u8,
}

// A tank's answer. code is 0, 24, 25 or 26; action is 1 hold, 2 cool, 3 warm, and 0 with a refusal; refusal is the box's own
// number with 25, and else 0.
#[repr(C)]
#[derive(Clone, Copy, Default)]
pub struct TankAnswer {
    pub code: u8,
    pub action: u8,
    pub refusal: u8,
}

// What a given correction claims: this probe logged these two bytes and got this tag.
#[derive(Clone, Copy)]
pub struct Claim {
    pub probe: u64,
    pub tag: Tag,
    pub low: u8,
    pub high: u8,
}

// What the box answers to a check: a number, or the number with which it refuses.
pub type Checked = Result<u64, u8>;

#[derive(Clone, Copy, PartialEq, Eq)]
pub enum Decision {
    Hold,
    Cool,
    Warm,
    // A reading or setpoint is out of range.
    OutOfRange,
    // The correction is not logged: the box's own refusal number, or 0 where the check said no.
    NotLogged(u8),
    // The correction is out of range.
    CorrectionOutOfRange,
}

// One tank.
pub fn caif_desk(
    tank: Tank,
    held: BoxRecord,
    log: &mut [LogRow],
    escrow: &mut [EscrowRow],
    heaps: &mut [u8],
    shared: &mut [u8],
    log_values: &mut [u8],
    escrow_values: &mut [u8],
    output: &mut [u8],
) -> TankAnswer
    ensures { desk_result result (lent_tables held log.new escrow.new heaps.new shared.new log_values.new escrow_values.new) output.new
        ≡ desk_leaves call_on (lent_tables held log.old escrow.old heaps.old shared.old log_values.old escrow_values.old)
        output.old tank }
{
    // A list of one is answered, with code 0.
    let mut answers = [TankAnswer::default()];
    caif_shift(
        &[tank],
        &mut answers,
        held,
        log,
        escrow,
        heaps,
        shared,
        log_values,
        escrow_values,
        output,
    );
    answers[0]
}

// A list of tanks, with as many answers: 0, or the number with which it is refused whole.
pub fn caif_shift(
    tanks: &[Tank],
    answers: &mut [TankAnswer],
    held: BoxRecord,
    log: &mut [LogRow],
    escrow: &mut [EscrowRow],
    heaps: &mut [u8],
    shared: &mut [u8],
    log_values: &mut [u8],
    escrow_values: &mut [u8],
    output: &mut [u8],
) -> u8
    ensures { shift_result result answers.new (lent_tables held log.new escrow.new heaps.new shared.new log_values.new escrow_values.new) output.new
        ≡ shift_leaves call_on (lent_tables held log.old escrow.old heaps.old shared.old log_values.old escrow_values.old)
        output.old tanks.now answers.old }
{
    let mut lent = Buffers {
        heaps,
        shared,
        log_values,
        escrow_values,
        output,
    };
    code_of(shift(tanks, answers, held, log, escrow, &mut lent))
}
