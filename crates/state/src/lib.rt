// What a call gives: its answer, the box record and the row that it puts; its refusals; a fresh box; whether a table has room.

#![tactic(auto)]

mod editing;
mod fresh;
mod full;
mod own;
mod refusal;

ghost use Rattle.std.specs.Prelude.{◌≡◌};
ghost use Rattle.state.specs.Answers.{refused_with, accepted_with, shown_with};
ghost use Rattle.state.specs.Edits.{unchanged};

pub use editing::unedited;
pub use fresh::{fresh_escrow, fresh_log, fresh_record};
pub use full::{is_full, raised};
use ideal::{BoxRecord, EscrowRow, LogRow};
pub use own::{heap_part, running_place};
pub use refusal::{Refusal, answer_of, change_of, shown_of};

// An answer. used is how many bytes of a record were used, 0 where none was read; shown is how many bytes stand at the front
// of the output buffer.
#[repr(C)]
#[derive(Clone, Copy)]
pub struct Answer {
    pub code: u8,
    pub number: u64,
    pub used: usize,
    pub shown: u16,
}

// A row that goes into the log at an index. What comes back of a table is this, and not the table.
#[derive(Clone, Copy)]
pub struct LogEdit {
    pub at: usize,
    pub row: LogRow,
}

// A row that goes into the escrow at an index, and by how much the first bytes of the rows after it fall.
#[derive(Clone, Copy)]
pub struct EscrowEdit {
    pub at: usize,
    pub row: EscrowRow,
    pub fall: u16,
}

// The row that a call puts into a table, if it puts one there.
#[derive(Clone, Copy)]
pub struct Edits {
    pub log: Option<LogEdit>,
    pub escrow: Option<EscrowEdit>,
}

// What a call makes of the box record and of the tables, and its answer.
#[derive(Clone, Copy)]
pub struct Change {
    pub held: BoxRecord,
    pub edits: Edits,
    pub answer: Answer,
}

pub fn refused(code: u8) -> Answer
    ensures { result ≡ refused_with code }
{
    Answer {
        code,
        number: 0,
        used: 0,
        shown: 0,
    }
}

pub fn accepted(number: u64) -> Answer
    ensures { result ≡ accepted_with number }
{
    Answer {
        code: 0,
        number,
        used: 0,
        shown: 0,
    }
}

// Of a call that shows size bytes.
pub fn shown(size: u16) -> Answer
    ensures { result ≡ shown_with size }
{
    let mut answer = accepted(size as u64);
    answer.shown = size;
    answer
}

// A refusal leaves the box record, and puts no row.
pub fn refuse(held: BoxRecord, code: u8) -> Change
    ensures { result ≡ unchanged held (refused_with code) }
{
    unedited(held, refused(code))
}
