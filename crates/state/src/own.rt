// The running place, and parts of its heap.
ghost use Rattle.std.specs.Prelude.{◌≡◌, ◌+◌, ◌≤◌, ◌<◌, MatchResult};
ghost use Rattle.ideal.specs.Tables.{heap_start};

use crate::Refusal;
use ideal::HEAP;

// The place that runs; 16 says that none does.
pub fn running_place(running: u8) -> Result<usize, Refusal>
    requires { running ≤ 16 }
    ensures { MatchResult result (λ place. (place ≡ running) × (place < 16)) (λ r. (running ≡ 16) × (r ≡ Refusal.NoneRuns)) }
{
    if running == 16 {
        return Err(Refusal::NoneRuns);
    }
    Ok(running as usize)
}

// Where a part of a place's heap starts and ends, among all heaps.
pub fn heap_part(place: usize, offset: u16, size: u16) -> Result<(usize, usize), Refusal>
    requires { place < 16 }
    ensures { MatchResult result (λ part. (offset + size ≤ 256) × (part.0 ≡ heap_start place + offset) × (part.1 ≡ heap_start place + offset + size)) (λ r. (256 < offset + size) × (r ≡ Refusal.Beyond)) }
{
    let end = offset as usize + size as usize;
    if end > HEAP {
        return Err(Refusal::Beyond);
    }
    let heap = HEAP * place;
    Ok((heap + offset as usize, heap + end))
}
