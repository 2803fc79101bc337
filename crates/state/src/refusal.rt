// Refusals, by their meaning and by their number, and what a call on a part of the box comes to.
ghost use Rattle.std.specs.Prelude.{◌≡◌};
ghost use Rattle.state.specs.Refusals.{number_of, answer_in, shown_in, change_in};

use crate::{Answer, Change, accepted, refuse, refused, shown};
use ideal::BoxRecord;

// Why a call is refused, with the numbers of documents 01 and 02.
#[derive(Clone, Copy, PartialEq, Eq)]
pub enum Refusal {
    // The record ends before a field does, or is empty.
    Cut = 1,
    // The map's bit 0 is down, or there is no such kind.
    UnknownKind = 2,
    // The map isn't the kind's.
    WrongMap = 3,
    // No program runs.
    NoneRuns = 4,
    // There is no such place.
    NoSuchPlace = 6,
    // The place is taken, where it is to be empty, or empty.
    WrongPlace = 7,
    // The place isn't the running one.
    NotRunning = 8,
    // The identity is 0.
    NoIdentity = 9,
    // There is no such row in the escrow.
    NotEscrowed = 10,
    // Offset and length go beyond the memory.
    Beyond = 11,
    // The draw has more than 48 bits.
    LargeDraw = 12,
    LogFull = 13,
    EscrowFull = 14,
    // A lent buffer isn't of its size, or the box isn't sound.
    Unsound = 15,
    // The writer's buffer is too short, or its bytes are too many.
    NoRoom = 17,
    // A link of a chain was not logged or escrowed so.
    NotVouched = 18,
    // A chain or one of its values is malformed.
    Malformed = 19,
    // A chain has more than sixteen links.
    LongChain = 20,
    // Level one has no such call.
    NoSuchCall = 21,
    // Level one has no such place.
    HighPlace = 22,
    // At level one the identity has logged another value.
    SecondValue = 23,
}

impl Refusal {
    pub fn number(self) -> u8
        ensures { result ≡ number_of self }
    {
        self as u8
    }
}

// The answer of a call that gives a number and shows nothing.
pub fn answer_of(outcome: Result<u64, Refusal>) -> Answer
    ensures { result ≡ answer_in outcome }
{
    match outcome {
        Ok(number) => accepted(number),
        Err(refusal) => refused(refusal.number()),
    }
}

// The answer of a call that shows so many bytes.
pub fn shown_of(outcome: Result<u16, Refusal>) -> Answer
    ensures { result ≡ shown_in outcome }
{
    match outcome {
        Ok(size) => shown(size),
        Err(refusal) => refused(refusal.number()),
    }
}

// What a call makes of the box: where it is refused, it leaves the box record and puts no row.
pub fn change_of(held: BoxRecord, outcome: Result<Change, Refusal>) -> Change
    ensures { result ≡ change_in held outcome }
{
    match outcome {
        Ok(change) => change,
        Err(refusal) => refuse(held, refusal.number()),
    }
}
