// A call that puts no row.
ghost use Rattle.std.specs.Prelude.{◌≡◌};
ghost use Rattle.state.specs.Edits.{unchanged};

use crate::{Answer, Change, Edits};
use ideal::BoxRecord;

pub fn unedited(held: BoxRecord, answer: Answer) -> Change
    ensures { result ≡ unchanged held answer }
{
    let edits = Edits {
        log: None,
        escrow: None,
    };
    Change {
        held,
        edits,
        answer,
    }
}
