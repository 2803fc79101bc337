// The running place's heap, written and read.

#![tactic(auto, unfolding(crate::specs::Narrow::heap_refusal, crate::specs::Narrow::heap_write_answer, crate::specs::Narrow::heap_write_heaps, crate::specs::Narrow::heap_read_answer, crate::specs::Narrow::heap_read_output, ideal::specs::Step::first_holding, ideal::specs::Step::beyond, state::specs::Answers::settled, state::specs::Answers::answered, state::specs::Answers::showed))]

ghost use Rattle.std.specs.Prelude.{◌≡◌, ◌+◌, length};
ghost use Rattle.ideal.specs.Tables.{heap_start};
ghost use Rattle.state.specs.Refusals.{answer_in, number_in, shown_in};
ghost use Rattle.heap.specs.Narrow.{heap_refusal, heap_write_answer, heap_write_heaps, heap_read_answer, heap_read_output};

use buffers::{beyond, put, show};
use ideal::{BoxRecord, HEAP};
use state::Refusal;

fn heap_refusal(running: u8, place: u8, offset: u16, size: usize) -> Result<(), Refusal>
    ensures { number_in result ≡ heap_refusal running place offset size }
{
    if running == 16 {
        return Err(Refusal::NoneRuns);
    }
    if place > 15 {
        return Err(Refusal::NoSuchPlace);
    }
    if place != running {
        return Err(Refusal::NotRunning);
    }
    if beyond(256, offset, size) {
        return Err(Refusal::Beyond);
    }
    Ok(())
}

// A byte of a place's heap, among all of them.
fn heap_byte(place: u8, offset: u16) -> usize
    ensures { result ≡ heap_start place + offset }
{
    HEAP * (place as usize) + offset as usize
}

pub fn heap_write(
    held: BoxRecord,
    heaps: &mut [u8],
    place: u8,
    offset: u16,
    bytes: &[u8],
) -> Result<u64, Refusal>
    requires { length heaps.old ≡ 4096 }
    ensures value { answer_in result ≡ heap_write_answer held place offset bytes.now }
    ensures heaps_after { heaps.new ≡ heap_write_heaps held heaps.old place offset bytes.now }
{
    let running = held.running;
    let n = bytes.len();
    heap_refusal(running, place, offset, n)?;
    put(bytes, heaps, heap_byte(running, offset));
    Ok(n as u64)
}

pub fn heap_read(
    held: BoxRecord,
    heaps: &[u8],
    output: &mut [u8],
    place: u8,
    offset: u16,
    size: u16,
) -> Result<u16, Refusal>
    requires { (length heaps.now ≡ 4096) × (length output.old ≡ 1024) }
    ensures value { shown_in result ≡ heap_read_answer held place offset size }
    ensures output_after { output.new ≡ heap_read_output held heaps.now output.old place offset size }
{
    let running = held.running;
    heap_refusal(running, place, offset, size as usize)?;
    show(heaps, output, heap_byte(running, offset), size);
    Ok(size)
}
