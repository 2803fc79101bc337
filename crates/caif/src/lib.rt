// The box over lent rows and buffers: what the exports of crate caif_c call, each the function of its name.

#![tactic(auto)]

mod entry;
mod lent_record;
mod refusal;
mod writing;

ghost use Rattle.std.specs.Prelude.{◌≡◌};
ghost use Rattle.ideal.specs.Tables.{fresh_tables, lent_tables};
ghost use Rattle.ideal.specs.Box.{call_on};
ghost use Rattle.ideal.specs.LevelOne.{level_one_on};
ghost use Rattle.calls.specs.Entry.{entry_on};
ghost use Rattle.caif.specs.Lent.{lent_result};

use calls::Buffers;
use entry::entry_call;
use ideal::{BoxRecord, EscrowRow, LogRow, Profile};
pub use lent_record::caif_call_lent;
use state::{Answer, fresh_record};
pub use writing::caif_write;

// An answer, with the box record as the call leaves it.
#[repr(C)]
#[derive(Clone, Copy)]
pub struct LentReply {
    pub held: BoxRecord,
    pub answer: Answer,
}

// What the writer answers: code is 0 where length says how long the record is, and else a refusal.
#[repr(C)]
#[derive(Clone, Copy)]
pub struct WrittenReply {
    pub code: u8,
    pub length: usize,
}

// The box record of a fresh box.
pub fn caif_fresh() -> BoxRecord
    ensures { result ≡ fresh_tables.box }
{
    fresh_record()
}

// One record on any box, over lent rows and buffers of any count.
pub fn caif_call(
    held: BoxRecord,
    log: &mut [LogRow],
    escrow: &mut [EscrowRow],
    heaps: &mut [u8],
    shared: &mut [u8],
    log_values: &mut [u8],
    escrow_values: &mut [u8],
    output: &mut [u8],
    bytes: &[u8],
) -> LentReply
    ensures { lent_result result log.new escrow.new heaps.new shared.new log_values.new escrow_values.new output.new
        ≡ entry_on call_on (lent_tables held log.old escrow.old heaps.old shared.old log_values.old escrow_values.old)
        bytes.now output.old }
{
    let mut lent = Buffers {
        heaps,
        shared,
        log_values,
        escrow_values,
        output,
    };
    entry_call(Profile::Full, &held, log, escrow, &mut lent, bytes)
}

// The same on the level-one box (document 02, P5).
pub fn caif_call_level_one(
    held: BoxRecord,
    log: &mut [LogRow],
    escrow: &mut [EscrowRow],
    heaps: &mut [u8],
    shared: &mut [u8],
    log_values: &mut [u8],
    escrow_values: &mut [u8],
    output: &mut [u8],
    bytes: &[u8],
) -> LentReply
    ensures { lent_result result log.new escrow.new heaps.new shared.new log_values.new escrow_values.new output.new
        ≡ entry_on level_one_on (lent_tables held log.old escrow.old heaps.old shared.old log_values.old escrow_values.old)
        bytes.now output.old }
{
    let mut lent = Buffers {
        heaps,
        shared,
        log_values,
        escrow_values,
        output,
    };
    entry_call(Profile::LevelOne, &held, log, escrow, &mut lent, bytes)
}
