// Text stored in a lent buffer from a place on. Each function returns the place after what it stored. Buffer and place are no
// struct: each function would have one clause more, that the struct still holds the same buffer.
ghost use Rattle.std.specs.Prelude.{◌≡◌, ◌+◌, ◌*◌, ◌<◌, ◌≤◌, [], ◌∷◌, length};
ghost use Rattle.sheet.specs.Sheet.{digit_of, decimal, hexadecimal, shown_text, spaced};
ghost use Rattle.sheet.specs.Stored.{Stored};

pub fn put_byte(b: u8, out: &mut [u8], at: usize) -> usize
    requires { at < length out.old }
    ensures { Stored (b ∷ []) out.old at out.new result }
{
    out[at] = b;
    at + 1
}

#[tactic(auto, unfolding(crate::specs::Sheet::digit_of))]
fn digit(d: u8) -> u8
    requires { d < 16 }
    ensures { result ≡ digit_of d }
{
    if d < 10 { b'0' + d } else { b'a' + (d - 10) }
}

// x in decimal: all digits but the last, then the last. std has a number's digits in a String alone, which is on the heap.
fn put_decimal(x: u64, out: &mut [u8], at: usize) -> usize
    requires { at + length (decimal x) ≤ length out.old }
    ensures { Stored (decimal x) out.old at out.new result }
{
    if x < 10 {
        return put_byte(digit(x as u8), out, at);
    }
    let last = put_decimal(x / 10, out, at);
    put_byte(digit((x % 10) as u8), out, last)
}

// x in decimal, at most 20 digits, and a space.
#[tactic(auto, using(crate::proofs::Texts::length_decimal))]
pub fn put_number(x: u64, out: &mut [u8], at: usize) -> usize
    requires { at + 21 ≤ length out.old }
    ensures { Stored (spaced x) out.old at out.new result }
{
    let next = put_decimal(x, out, at);
    put_byte(b' ', out, next)
}

// Two digits a byte.
fn put_hex(bytes: &[u8], out: &mut [u8], at: usize) -> usize
    requires { at + 2 * length bytes.now ≤ length out.old }
    ensures { Stored (hexadecimal bytes.now) out.old at out.new result }
{
    let mut next = at;
    for b in bytes {
        out[next] = digit(*b / 16);
        out[next + 1] = digit(*b % 16);
        next += 2;
    }
    next
}

// Bytes in hexadecimal, or "-" for none.
#[tactic(auto, using(crate::proofs::Texts::shown_none, crate::proofs::Texts::shown_some))]
pub fn put_shown(shown: &[u8], out: &mut [u8], at: usize) -> usize
    requires { at + 2 * length shown.now < length out.old }
    ensures { Stored (shown_text shown.now) out.old at out.new result }
{
    if shown.is_empty() {
        return put_byte(b'-', out, at);
    }
    put_hex(shown, out, at)
}
