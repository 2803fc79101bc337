// Shared memory, written and read.

#![tactic(auto, unfolding(crate::specs::Narrow::shared_refusal, crate::specs::Narrow::shared_write_answer, crate::specs::Narrow::shared_write_shared, crate::specs::Narrow::shared_read_answer, crate::specs::Narrow::shared_read_output, ideal::specs::Step::first_holding, ideal::specs::Step::beyond, state::specs::Answers::settled, state::specs::Answers::answered, state::specs::Answers::showed))]

ghost use Rattle.std.specs.Prelude.{◌≡◌, length};
ghost use Rattle.state.specs.Refusals.{answer_in, shown_in};
ghost use Rattle.shared.specs.Narrow.{shared_write_answer, shared_write_shared, shared_read_answer, shared_read_output};

use buffers::{beyond, put, show};
use state::Refusal;

pub fn shared_write(shared: &mut [u8], offset: u16, bytes: &[u8]) -> Result<u64, Refusal>
    requires { length shared.old ≡ 1024 }
    ensures value { answer_in result ≡ shared_write_answer offset bytes.now }
    ensures shared_after { shared.new ≡ shared_write_shared shared.old offset bytes.now }
{
    let n = bytes.len();
    if beyond(1024, offset, n) {
        return Err(Refusal::Beyond);
    }
    put(bytes, shared, offset as usize);
    Ok(n as u64)
}

pub fn shared_read(shared: &[u8], output: &mut [u8], offset: u16, size: u16) -> Result<u16, Refusal>
    requires { (length shared.now ≡ 1024) × (length output.old ≡ 1024) }
    ensures value { shown_in result ≡ shared_read_answer offset size }
    ensures output_after { output.new ≡ shared_read_output shared.now output.old offset size }
{
    if beyond(1024, offset, size as usize) {
        return Err(Refusal::Beyond);
    }
    show(shared, output, offset as usize, size);
    Ok(size)
}
