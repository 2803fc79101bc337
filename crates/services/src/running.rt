// Hand over: a place runs from the hand over to it until the next hand over or its exit.
ghost use Rattle.std.specs.Prelude.{◌≡◌};
ghost use Rattle.state.specs.Refusals.{change_in};
ghost use Rattle.services.specs.Narrow.{empty_at, hand_over_on};

use ideal::BoxRecord;
use state::{Change, Refusal, accepted, unedited};

// Whether a place of 0 to 15 is empty.
fn empty_at(held: BoxRecord, place: u8) -> bool
    ensures { result ≡ empty_at held place }
{
    place < 16 && held.identities[place as usize] == 0
}

// Place 16 is none. One step, not a yield and a start: a refusal leaves what runs. No heap is altered.
pub fn hand_over(held: BoxRecord, place: u8) -> Result<Change, Refusal>
    ensures { change_in held result ≡ hand_over_on held place }
{
    if place > 16 {
        return Err(Refusal::NoSuchPlace);
    }
    if empty_at(held, place) {
        return Err(Refusal::WrongPlace);
    }
    let mut next = held;
    next.running = place;
    Ok(unedited(next, accepted(0)))
}
