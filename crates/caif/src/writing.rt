// The record of a call, at the front of a host's buffer.
ghost use Rattle.std.specs.Prelude.{◌≡◌};
ghost use Rattle.record.specs.Write.{write_on};
ghost use Rattle.caif.specs.Lent.{lent_written};

use crate::WrittenReply;
use record::Fields;
use writer::write_call;

// The record of a call, at the front of out.
pub fn caif_write(kind: u8, fields: Fields, bytes: &[u8], out: &mut [u8]) -> WrittenReply
    ensures { lent_written result out.new ≡ write_on kind fields bytes.now out.old }
{
    match write_call(kind, fields, bytes, out) {
        Ok(length) => WrittenReply { code: 0, length },
        Err(unwritten) => WrittenReply {
            code: unwritten.number(),
            length: 0,
        },
    }
}
