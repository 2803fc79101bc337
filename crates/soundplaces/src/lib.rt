// The running place, the map of taken places, and the heaps of empty ones.

#![tactic(auto)]

ghost use Rattle.std.specs.Prelude.{◌≡◌, ◌&&◌, ◌||◌, eqb, ltb, length};
ghost use Rattle.ideal.specs.Tables.{taken_map, chunks};
ghost use Rattle.record.specs.Layout.{stands};
ghost use Rattle.ideal.specs.Soundness.{empty_heaps_zero};
ghost use Rattle.soundness.specs.Tests.{places_sound};

use buffers::all_zero;
use ideal::{BoxRecord, HEAP};

// Whether none runs, or the running place's bit of the map stands. Not by the identity at that place: an element at a place
// that is not known beforehand keeps the whole record in memory.
fn running_taken(running: u8, taken: u16) -> bool
    ensures { result ≡ (eqb running 16 || (ltb running 16 && stands taken running)) }
{
    running == 16 || running < 16 && (taken >> running) & 1 == 1
}

// The map of the places that have an identity, from the highest place down.
fn taken_map(identities: [u64; 16]) -> u16
    ensures { result ≡ taken_map identities }
{
    let mut map: u16 = 0;
    for identity in identities.iter().rev() {
        map = map * 2 + u16::from(*identity != 0);
    }
    map
}

// Whether each place is taken, or its heap all zeros. By ranges: chunks divides, as the compiler reads it, and the soundness
// test must not (request P4).
#[tactic(auto, using(soundness::proofs::MapAndHeaps::heap_step, soundness::proofs::MapAndHeaps::heaps_ended))]
fn heaps_sound(identities: [u64; 16], heaps: &[u8]) -> bool
    requires { length heaps.now ≡ 4096 }
    ensures { result ≡ empty_heaps_zero identities (chunks 16 heaps.now) }
{
    for (i, identity) in identities.iter().enumerate() {
        let start = HEAP * i;
        let end = start + HEAP;
        if *identity == 0 && !all_zero(&heaps[start..end]) {
            return false;
        }
    }
    true
}

#[tactic(auto, using(crate::proofs::Map::by_map), unfolding(soundness::specs::Tests::places_sound, ideal::specs::Soundness::pass))]
pub fn places_sound(held: BoxRecord, heaps: &[u8]) -> bool
    requires { length heaps.now ≡ 4096 }
    ensures { result ≡ places_sound held heaps.now }
{
    let identities = held.identities;
    held.taken == taken_map(identities)
        && running_taken(held.running, held.taken)
        && heaps_sound(identities, heaps)
}
