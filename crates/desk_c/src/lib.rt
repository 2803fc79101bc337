// The tank desk for hosts in C: what include/caif.h declares of it. Each export calls the function of its name in crate desk, and
// says the same.

#![tactic(auto)]

ghost use Rattle.std.specs.Prelude.{◌≡◌};
ghost use Rattle.ideal.specs.Box.{call_on};
ghost use Rattle.ideal.specs.Tables.{lent_tables};
ghost use Rattle.desk.specs.Results.{desk_result, desk_leaves, shift_result, shift_leaves};

use desk::{Tank, TankAnswer};
use ideal::{BoxRecord, EscrowRow, LogRow};

// One tank.
#[unsafe(no_mangle)]
pub extern "C" fn caif_desk(
    tank: Tank,
    held: BoxRecord,
    log: &mut [LogRow],
    escrow: &mut [EscrowRow],
    heaps: &mut [u8],
    shared: &mut [u8],
    log_values: &mut [u8],
    escrow_values: &mut [u8],
    output: &mut [u8],
) -> TankAnswer
    ensures { desk_result result (lent_tables held log.new escrow.new heaps.new shared.new log_values.new escrow_values.new) output.new
        ≡ desk_leaves call_on (lent_tables held log.old escrow.old heaps.old shared.old log_values.old escrow_values.old)
        output.old tank }
{
    desk::caif_desk(
        tank,
        held,
        log,
        escrow,
        heaps,
        shared,
        log_values,
        escrow_values,
        output,
    )
}

// A list of tanks, with as many answers: 0, or the number with which it is refused whole.
#[unsafe(no_mangle)]
pub extern "C" fn caif_shift(
    tanks: &[Tank],
    answers: &mut [TankAnswer],
    held: BoxRecord,
    log: &mut [LogRow],
    escrow: &mut [EscrowRow],
    heaps: &mut [u8],
    shared: &mut [u8],
    log_values: &mut [u8],
    escrow_values: &mut [u8],
    output: &mut [u8],
) -> u8
    ensures { shift_result result answers.new (lent_tables held log.new escrow.new heaps.new shared.new log_values.new escrow_values.new) output.new
        ≡ shift_leaves call_on (lent_tables held log.old escrow.old heaps.old shared.old log_values.old escrow_values.old)
        output.old tanks.now answers.old }
{
    desk::caif_shift(
        tanks,
        answers,
        held,
        log,
        escrow,
        heaps,
        shared,
        log_values,
        escrow_values,
        output,
    )
}
