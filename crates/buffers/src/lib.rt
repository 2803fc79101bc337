// Lent bytes: whether they are 0, or the same; copied, put, shown, cleared and taken out; whether a range goes beyond a limit;
// numbers in them, lowest byte first, and values after their counts.

#![tactic(auto)]

ghost use Rattle.std.specs.Prelude.{◌≡◌, ◌+◌, ◌-◌, ◌≤◌, ◌<◌, ◌^◌, ltb, length, replicate, take, drop, ◌++◌};
ghost use Rattle.std.proofs.lemmas.List.Edits.{sets};
ghost use Rattle.lists.specs.Lists.{same_bytes, all_zero};
ghost use Rattle.fnv.specs.Fnv.{little};
ghost use Rattle.record.specs.Read.{from_little};
ghost use Rattle.buffers.specs.Counted.{counted_at, CountedWithin};

// Whether the bytes are 0: joined by `|`, with no way out of the loop, so that it is compiled to vector code.
#[tactic(auto, using(crate::proofs::Loops::joined, crate::proofs::Loops::zero_step, lists::proofs::Bools::and_assoc, lists::proofs::Bools::and_nil), unfolding(lists::specs::Lists::all_zero, lists::specs::Lists::every))]
fn part_zero(s: &[u8]) -> bool
    ensures { result ≡ all_zero s.now }
{
    let mut all: u8 = 0;
    for b in s {
        all |= *b;
    }
    all == 0
}

// Whether every byte is 0: 256 at a time, a length known beforehand, so that the loop over them takes no steps of its own, and
// what is left. Not by chunks, whose length divides, as the compiler reads it: the soundness test must not (request P4).
pub fn all_zero(s: &[u8]) -> bool
    ensures { result ≡ all_zero s.now }
{
    let mut rest = s;
    while let Some((part, more)) = rest.split_at_checked(256) {
        if !part_zero(part) {
            return false;
        }
        rest = more;
    }
    part_zero(rest)
}

// Byte by byte: == on slices divides, as the compiler reads it, and the soundness test must not (request P4).
#[tactic(auto, using(crate::proofs::Loops::lengths_differ))]
pub fn same(a: &[u8], b: &[u8]) -> bool
    ensures { result ≡ same_bytes a.now b.now }
{
    if a.len() != b.len() {
        return false;
    }
    a.iter().zip(b).all(|(x, y)| x == y)
}

// The bytes of src over the front of dst. Not by copy_from_slice, which becomes memmove: the archives for C are to need no more
// of the C library than memcpy and memset.
pub fn copy(src: &[u8], dst: &mut [u8])
    requires { length src.now ≤ length dst.old }
    ensures { dst.new ≡ src.now ++ drop (length src.now) dst.old }
{
    for (i, b) in src.iter().enumerate() {
        dst[i] = *b;
    }
}

// The bytes of src into dst from start on.
#[tactic(auto, using(crate::proofs::Loops::part_replaced))]
pub fn put(src: &[u8], dst: &mut [u8], start: usize)
    requires { start + length src.now ≤ length dst.old }
    ensures { dst.new ≡ sets dst.old start src.now }
{
    let end = start + src.len();
    copy(src, &mut dst[start..end]);
}

// Whether size bytes from offset on go beyond a limit. Nothing is added, so that nothing wraps, however long the bytes are.
#[tactic(auto, using(std::proofs::lemmas::Bool::Decides::nat_tests))]
pub fn beyond(limit: usize, offset: u16, size: usize) -> bool
    ensures { result ≡ ltb limit (offset + size) }
{
    if size > limit {
        return true;
    }
    offset as usize > limit - size
}

// size bytes of a memory, from start on, over the front of the output buffer.
pub fn show(memory: &[u8], output: &mut [u8], start: usize, size: u16)
    requires { (start + size ≤ length memory.now) × (size ≤ length output.old) }
    ensures { output.new ≡ take size (drop start memory.now) ++ drop size output.old }
{
    let end = start + size as usize;
    copy(&memory[start..end], output);
}

pub fn clear(dst: &mut [u8])
    ensures { dst.new ≡ replicate (length dst.old) 0 }
{
    dst.fill(0);
}

// The bytes from n on over the front of dst; the last n stay as they were. Not by copy_within, which is memmove.
fn move_down(dst: &mut [u8], n: usize)
    requires { n ≤ length dst.old }
    ensures { dst.new ≡ drop n dst.old ++ drop (length dst.old - n) dst.old }
{
    for i in 0..dst.len() - n {
        dst[i] = dst[i + n];
    }
}

// The first n bytes taken out of dst: what follows them closes up, with zeros behind.
pub fn take_out(dst: &mut [u8], n: usize)
    requires { n ≤ length dst.old }
    ensures { dst.new ≡ drop n dst.old ++ replicate n 0 }
{
    move_down(dst, n);
    let end = dst.len() - n;
    clear(&mut dst[end..]);
}

// The number of `width` bytes, lowest first. The highest is taken in first.
#[tactic(auto, unfolding(record::specs::Read::from_little))]
pub fn number_at(bytes: &[u8], at: usize, width: usize) -> u64
    requires width_in_bounds { at + width ≤ length bytes.now }
    requires width_bound { width ≤ 8 }
    ensures value { result ≡ from_little (take width (drop at bytes.now)) }
    ensures upper_bound { result < 256 ^ width }
{
    let mut x: u64 = 0;
    for i in (0..width).rev() {
        x = x * 256 + u64::from(bytes[at + i]);
    }
    x
}

// The `width` lowest bytes of x, lowest first, from `at` on. Not by to_le_bytes, which has 8: this asks no bound of the width.
#[tactic(auto, using(crate::proofs::Loops::part_replaced, crate::proofs::Loops::sets_whole, record::proofs::LittleEndian::length_little), unfolding(fnv::specs::Fnv::little))]
pub fn put_number(out: &mut [u8], at: usize, width: usize, x: u64)
    requires { at + width ≤ length out.old }
    ensures { out.new ≡ sets out.old at (little width x) }
{
    let mut rest = x;
    for b in &mut out[at..at + width] {
        *b = (rest % 256) as u8;
        rest /= 256;
    }
}

// Where the value at a position starts and ends, which stands after its count of 2 bytes; none where the bytes end before it
// does.
#[tactic(auto, using(std::proofs::lemmas::Bool::Decides::nat_tests), unfolding(crate::specs::Counted::counted_at, crate::specs::Counted::CountedWithin))]
pub fn counted_at(bytes: &[u8], at: usize) -> Option<(usize, usize)>
    requires { at ≤ length bytes.now }
    ensures value { result ≡ counted_at bytes.now at }
    ensures counted_within { CountedWithin bytes.now result }
{
    if bytes.len() - at < 2 {
        return None;
    }
    let start = at + 2;
    let count = number_at(bytes, at, 2) as usize;
    if bytes.len() - start < count {
        return None;
    }
    Some((start, start + count))
}
