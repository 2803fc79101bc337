// What the entries call: the box over lent rows, in a profile.
ghost use Rattle.std.specs.Prelude.{◌≡◌};
ghost use Rattle.ideal.specs.LevelOne.{box_of};
ghost use Rattle.calls.specs.Buffers.{tables_in, SameBuffers};
ghost use Rattle.calls.specs.Entry.{entry_on};
ghost use Rattle.caif.specs.Lent.{lent_result_in};

use crate::LentReply;
use crate::refusal::refused_rows;
use calls::{Buffers, call};
use ideal::{BoxRecord, EscrowRow, LogRow, Profile};
use rows::{edit_escrow, escrow_unfit, log_unfit, put_log_row};

// One record in a profile on any box, over lent rows and buffers of any count. The box record is lent to be read: one by value
// would be copied for the call by an entry to which it is lent (docs/DECISIONS.md).
pub fn entry_call(
    profile: Profile,
    held: &BoxRecord,
    log: &mut [LogRow],
    escrow: &mut [EscrowRow],
    lent: &mut Buffers,
    bytes: &[u8],
) -> LentReply
    ensures same_buffers { SameBuffers lent.old lent.new }
    ensures output_after { lent_result_in result log.new escrow.new lent.new
        ≡ entry_on (box_of profile) (tables_in held.now log.old escrow.old lent.old) bytes.now lent.old.output.now }
{
    let held = *held;
    if log_unfit(log, held.log.rows as usize) {
        return refused_rows(held);
    }
    if escrow_unfit(escrow, held.escrow.rows as usize) {
        return refused_rows(held);
    }
    let change = call(profile, held, log, escrow, lent, bytes);
    put_log_row(log, change.edits.log);
    edit_escrow(escrow, change.edits.escrow);
    LentReply {
        held: change.held,
        answer: change.answer,
    }
}
