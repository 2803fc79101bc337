// The box for hosts in C: what include/caif.h declares of it. Each export calls the function of its name in crate caif, and says
// the same.

#![tactic(auto)]

ghost use Rattle.std.specs.Prelude.{◌≡◌};
ghost use Rattle.record.specs.Write.{write_on};
ghost use Rattle.ideal.specs.Tables.{fresh_tables, lent_tables};
ghost use Rattle.ideal.specs.Box.{call_on};
ghost use Rattle.ideal.specs.LevelOne.{level_one_on};
ghost use Rattle.calls.specs.Entry.{entry_on};
ghost use Rattle.caif.specs.Lent.{lent_result, lent_written};

use caif::{LentReply, WrittenReply};
use ideal::{BoxRecord, EscrowRow, LogRow};
use record::Fields;
use state::Answer;

// The box record of a fresh box.
#[unsafe(no_mangle)]
pub extern "C" fn caif_fresh() -> BoxRecord
    ensures { result ≡ fresh_tables.box }
{
    caif::caif_fresh()
}

// One record on any box, over lent rows and buffers of any count.
#[unsafe(no_mangle)]
pub extern "C" fn caif_call(
    held: BoxRecord,
    log: &mut [LogRow],
    escrow: &mut [EscrowRow],
    heaps: &mut [u8],
    shared: &mut [u8],
    log_values: &mut [u8],
    escrow_values: &mut [u8],
    output: &mut [u8],
    bytes: &[u8],
) -> LentReply
    ensures { lent_result result log.new escrow.new heaps.new shared.new log_values.new escrow_values.new output.new
        ≡ entry_on call_on (lent_tables held log.old escrow.old heaps.old shared.old log_values.old escrow_values.old)
        bytes.now output.old }
{
    caif::caif_call(
        held,
        log,
        escrow,
        heaps,
        shared,
        log_values,
        escrow_values,
        output,
        bytes,
    )
}

// As caif_call, on a box record that is lent too and has the new state afterwards. A refusal stores nothing.
#[unsafe(no_mangle)]
pub extern "C" fn caif_call_lent(
    held: &mut BoxRecord,
    log: &mut [LogRow],
    escrow: &mut [EscrowRow],
    heaps: &mut [u8],
    shared: &mut [u8],
    log_values: &mut [u8],
    escrow_values: &mut [u8],
    output: &mut [u8],
    bytes: &[u8],
) -> Answer
    ensures { lent_result (record { held = held.new; answer = result }) log.new escrow.new heaps.new shared.new log_values.new escrow_values.new output.new
        ≡ entry_on call_on (lent_tables held.old log.old escrow.old heaps.old shared.old log_values.old escrow_values.old)
        bytes.now output.old }
{
    caif::caif_call_lent(
        held,
        log,
        escrow,
        heaps,
        shared,
        log_values,
        escrow_values,
        output,
        bytes,
    )
}

// The same on the level-one box.
#[unsafe(no_mangle)]
pub extern "C" fn caif_call_level_one(
    held: BoxRecord,
    log: &mut [LogRow],
    escrow: &mut [EscrowRow],
    heaps: &mut [u8],
    shared: &mut [u8],
    log_values: &mut [u8],
    escrow_values: &mut [u8],
    output: &mut [u8],
    bytes: &[u8],
) -> LentReply
    ensures { lent_result result log.new escrow.new heaps.new shared.new log_values.new escrow_values.new output.new
        ≡ entry_on level_one_on (lent_tables held log.old escrow.old heaps.old shared.old log_values.old escrow_values.old)
        bytes.now output.old }
{
    caif::caif_call_level_one(
        held,
        log,
        escrow,
        heaps,
        shared,
        log_values,
        escrow_values,
        output,
        bytes,
    )
}

// The record of a call, at the front of out.
#[unsafe(no_mangle)]
pub extern "C" fn caif_write(kind: u8, fields: Fields, bytes: &[u8], out: &mut [u8]) -> WrittenReply
    ensures { lent_written result out.new ≡ write_on kind fields bytes.now out.old }
{
    caif::caif_write(kind, fields, bytes, out)
}
