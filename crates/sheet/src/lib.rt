// The text of the answer sheet.

#![tactic(auto)]

mod text;

ghost use Rattle.std.specs.Prelude.{◌≡◌, ◌+◌, ◌*◌, ◌≤◌, length};
ghost use Rattle.sheet.specs.Records.{last_code};
ghost use Rattle.sheet.specs.Sheet.{line, header, too_long};
ghost use Rattle.sheet.specs.Stored.{AtFront};

use text::{put_byte, put_number, put_shown};

// The first line of a sheet.
#[tactic(auto, unfolding(crate::specs::Sheet::header, crate::specs::Sheet::bytes_of))]
pub fn header() -> [u8; 23]
    ensures { result ≡ header }
{
    *b"code number used bytes\n"
}

// The line for a script that is too long.
#[tactic(auto, unfolding(crate::specs::Sheet::too_long, crate::specs::Sheet::bytes_of))]
pub fn too_long() -> [u8; 9]
    ensures { result ≡ too_long }
{
    *b"16 0 0 -\n"
}

// Whether a line with this code is the last.
#[tactic(auto, unfolding(crate::specs::Records::last_code))]
pub fn is_last(code: u8) -> bool
    ensures { result ≡ last_code code }
{
    matches!(code, 1 | 2 | 3)
}

// The line of an answer, at the front of out. A number has at most 20 digits.
#[tactic(auto, using(crate::proofs::Texts::length_spaced, crate::proofs::Texts::length_shown))]
pub fn write_line(code: u8, number: u64, used: usize, shown: &[u8], out: &mut [u8]) -> usize
    requires { 65 + 2 * length shown.now ≤ length out.old }
    ensures { AtFront (line (record { code = code; number = number; used = used; shown = shown.now }))
        out.old out.new result }
{
    let a = put_number(code as u64, out, 0);
    let b = put_number(number, out, a);
    let c = put_number(used as u64, out, b);
    let d = put_shown(shown, out, c);
    put_byte(b'\n', out, d)
}
