// The refusal of lent rows that no sound box has.
ghost use Rattle.std.specs.Prelude.{◌≡◌};
ghost use Rattle.state.specs.Answers.{refused_with};

use crate::LentReply;
use ideal::BoxRecord;
use state::{Refusal, refused};

pub fn refused_rows(held: BoxRecord) -> LentReply
    ensures { result ≡ record { held = held; answer = refused_with 15 } }
{
    LentReply {
        held,
        answer: refused(Refusal::Unsound.number()),
    }
}
