// The entry to which the box record is lent.
ghost use Rattle.std.specs.Prelude.{◌≡◌};
ghost use Rattle.ideal.specs.Tables.{lent_tables};
ghost use Rattle.ideal.specs.Box.{call_on};
ghost use Rattle.calls.specs.Entry.{entry_on};
ghost use Rattle.caif.specs.Lent.{lent_result};

use crate::entry::entry_call;
use calls::Buffers;
use ideal::{BoxRecord, EscrowRow, LogRow, Profile};
use state::Answer;

// As caif_call, on a box record that is lent too and has the new state afterwards (document 02, P9). A refusal stores nothing.
pub fn caif_call_lent(
    held: &mut BoxRecord,
    log: &mut [LogRow],
    escrow: &mut [EscrowRow],
    heaps: &mut [u8],
    shared: &mut [u8],
    log_values: &mut [u8],
    escrow_values: &mut [u8],
    output: &mut [u8],
    bytes: &[u8],
) -> Answer
    ensures { lent_result (record { held = held.new; answer = result }) log.new escrow.new heaps.new shared.new log_values.new escrow_values.new output.new
        ≡ entry_on call_on (lent_tables held.old log.old escrow.old heaps.old shared.old log_values.old escrow_values.old)
        bytes.now output.old }
{
    let mut lent = Buffers {
        heaps,
        shared,
        log_values,
        escrow_values,
        output,
    };
    let reply = entry_call(Profile::Full, held, log, escrow, &mut lent, bytes);
    let refused = reply.answer.code != 0;
    if refused {
        return reply.answer;
    }
    *held = reply.held;
    reply.answer
}
