// Standard output: what is printed of a script's sheet, part after part. No other function writes there.
ghost use Rattle.std.specs.Prelude.{◌+◌, ◌^◌, ◌<◌, ◌≡◌, length};
ghost use Rattle.ideal.specs.LevelOne.{box_of};
ghost use Rattle.sheet.specs.Sheet.{sheet};
ghost use Rattle.printing.specs.Printing.{NextPart, PrintedPart};

use ideal::Profile;
use std::io::{Print, Stdout};

// How many bytes of a sheet are printed. The field is private: only `nothing` and `print` make one.
#[derive(Clone, Copy)]
pub struct Progress {
    printed: usize,
}

// That the part from this place on was handed to `write_all`, which did not write all of it. Only `print` makes one.
#[derive(Clone, Copy)]
pub struct Unwritten {
    from: usize,
}

pub fn nothing() -> Progress
    ensures { result.printed ≡ 0 }
{
    Progress { printed: 0 }
}

// The next part of the script's sheet. The profile says which sheet that is, and nothing else.
pub fn print(
    output: Stdout,
    profile: Profile,
    script: &[u8],
    before: Progress,
    bytes: &[u8],
) -> Result<Progress, Unwritten>
    requires next_part { NextPart (sheet (box_of profile) script.now) before.printed bytes.now }
    requires bytes_bound { before.printed + length bytes.now < 2 ^ 64 }
    ensures { PrintedPart result before.printed bytes.now }
{
    let printed = before.printed;
    match output.write_all(bytes) {
        Ok(()) => Ok(Progress {
            printed: printed + bytes.len(),
        }),
        Err(_) => Err(Unwritten { from: printed }),
    }
}
