// The first free handle from a draw on.

#![tactic(auto)]

ghost use Rattle.std.specs.Prelude.{◌≡◌, List, ℕ, ◌^◌, ◌<◌};
ghost use Rattle.ideal.specs.State.{any};
ghost use Rattle.ideal.specs.Step.{has_handle, handle_of, next, free_handle};
ghost use Rattle.ideal.specs.Tables.{escrow_table, entries_of};

use ideal::EscrowRow;
use record::{Draw, Handle};

// The multiplier of POSIX's drand48.
const MULTIPLIER: u64 = 25214903917;

// The draw after one whose handle is in use: MULTIPLIER times it plus 11, modulo 2^48. The product would overflow 64 bits,
// so the draw's two halves of 24 bits are multiplied apart; of the high half's product only the 24 lowest bits count.
fn next_draw(draw: Draw) -> Draw
    requires { draw.0 < 2 ^ 48 }
    ensures { result.0 ≡ next draw.0 }
{
    let low = MULTIPLIER * (draw.0 % 16777216);
    let high = MULTIPLIER * (draw.0 / 16777216);
    Draw((low + high % 16777216 * 16777216 + 11) % 281474976710656)
}

#[tactic(auto, unfolding(ideal::specs::Step::handle_of))]
fn handle_of(size: u16, draw: Draw) -> Handle
    requires { draw.0 < 2 ^ 48 }
    ensures { result ≡ handle_of size draw.0 }
{
    Handle(size as u64 * 281474976710656 + draw.0)
}

// Whether a row has this handle.
pub fn is_used(rows: &[EscrowRow], handle: Handle) -> bool
    ensures { (values : List ℕ) → result ≡ any (has_handle handle) (entries_of escrow_table values rows.now) }
{
    rows.iter().any(|row| row.handle == handle)
}

// The first handle from the draw on that no row has; at most 64 candidates are passed over.
#[tactic(auto, using(crate::proofs::Free::free_here, crate::proofs::Free::free_later, crate::proofs::Free::free_last, crate::proofs::Free::next_small), unfolding(ideal::specs::Step::free_handle))]
pub fn free_handle(rows: &[EscrowRow], size: u16, draw: Draw) -> Handle
    requires { draw.0 < 2 ^ 48 }
    ensures { (values : List ℕ) → result ≡ free_handle size draw (entries_of escrow_table values rows.now) }
{
    let mut d = draw;
    for _ in 0..64u8 {
        let handle = handle_of(size, d);
        if !is_used(rows, handle) {
            return handle;
        }
        d = next_draw(d);
    }
    handle_of(size, d)
}
