// Create and exit: a place is taken and emptied. Report: what the box holds.

#![tactic(auto, using(crate::proofs::Map::bits, crate::proofs::Ones::ones_counted), unfolding(crate::specs::Narrow::create_on, crate::specs::Narrow::exit_on, crate::specs::Narrow::exit_heaps, crate::specs::Narrow::report_on, crate::specs::Narrow::hand_over_on, ideal::specs::Step::first_holding, state::specs::Answers::settled, state::specs::Answers::answered))]

mod running;

ghost use Rattle.std.specs.Prelude.{◌≡◌, ◌^◌, ◌<◌};
ghost use Rattle.ideal.specs.Tables.{taken_map};
ghost use Rattle.state.specs.Refusals.{change_in};
ghost use Rattle.services.specs.Narrow.{Leaving, create_on, exit_on, exit_heaps, report_on};

use buffers::clear;
use ideal::{BoxRecord, HEAP};
pub use running::hand_over;
use state::{Answer, Change, Refusal, accepted, unedited};

// The bit of a place in the map of taken places.
fn bit_of(place: u8) -> u16
    requires { place < 16 }
    ensures { result ≡ 2 ^ place }
{
    1u16 << place
}

pub fn create(held: BoxRecord, place: u8, identity: u64) -> Result<Change, Refusal>
    requires { held.taken ≡ taken_map held.identities }
    ensures { change_in held result ≡ create_on held place identity }
{
    if place > 15 {
        return Err(Refusal::NoSuchPlace);
    }
    let p = place as usize;
    if held.identities[p] != 0 {
        return Err(Refusal::WrongPlace);
    }
    if identity == 0 {
        return Err(Refusal::NoIdentity);
    }
    let mut next = held;
    next.taken += bit_of(place);
    next.identities[p] = identity;
    Ok(unedited(next, accepted(place as u64)))
}

// The heap is cleared here, not at the next create.
pub fn exit_running(held: BoxRecord, heaps: &mut [u8]) -> Result<Change, Refusal>
    requires { Leaving held heaps.old }
    ensures value { change_in held result ≡ exit_on held }
    ensures heaps_after { heaps.new ≡ exit_heaps held heaps.old }
{
    let place = held.running;
    if place == 16 {
        return Err(Refusal::NoneRuns);
    }
    let p = place as usize;
    let first = HEAP * p;
    let end = first + HEAP;
    clear(&mut heaps[first..end]);
    let mut next = held;
    next.taken -= bit_of(place);
    next.identities[p] = 0;
    next.running = 16;
    Ok(unedited(next, accepted(0)))
}

pub fn report(held: BoxRecord) -> Answer
    ensures { result ≡ report_on held }
{
    let services = held.taken.count_ones();
    let log_rows = held.log.rows as u64;
    let escrow_rows = held.escrow.rows as u64;
    accepted(services as u64 + 256 * log_rows + 65536 * escrow_rows)
}
