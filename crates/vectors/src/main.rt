// FNV-1a vectors of 64 bits, run on the proved library. `stdout` has their values: five were given from outside, and the
// others are computed (docs/DECISIONS.md, "FNV's vectors").
#![tactic(auto)]

ghost use Rattle.std.specs.Prelude.{◌≡◌};
ghost use Rattle.vectors.specs.Lines.{line_of};

use std::io::Result;

// The hash in hexadecimal, and a line feed.
fn line_of(value: &[u8]) -> [u8; 17]
    ensures { result ≡ line_of value.now }
{
    let mut digits = [0u8; 16];
    io::hex(fnv::hash(value), 16, &mut digits);
    let mut line = [b'\n'; 17];
    line[..16].copy_from_slice(&digits);
    line
}

fn main(rt: HostRuntime) -> Result<()> {
    rt.write_all(&line_of(b""))?;
    rt.write_all(&line_of(b"a"))?;
    rt.write_all(&line_of(b"b"))?;
    rt.write_all(&line_of(b"c"))?;
    rt.write_all(&line_of(b"d"))?;
    rt.write_all(&line_of(b"e"))?;
    rt.write_all(&line_of(b"f"))?;
    rt.write_all(&line_of(b"fo"))?;
    rt.write_all(&line_of(b"foo"))?;
    rt.write_all(&line_of(b"foob"))?;
    rt.write_all(&line_of(b"fooba"))?;
    rt.write_all(&line_of(b"foobar"))?;
    rt.write_all(&line_of(b"hello"))?;
    rt.write_all(&line_of(b"chongo was here!\n"))
}
