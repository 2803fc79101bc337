// A tank's correction.
ghost use Rattle.std.specs.Prelude.{◌≡◌};
ghost use Rattle.desk.specs.Decision.{signed, claim_of, correction_of};

use crate::{Claim, Tank};

// Two bytes, lowest first, in two's complement.
#[tactic(auto, using(std::proofs::lemmas::Int::ints), unfolding(crate::specs::Decision::signed))]
pub fn signed_of(low: u8, high: u8) -> i16
    ensures { result ≡ signed low high }
{
    i16::from_le_bytes([low, high])
}

pub fn claim_of(tank: Tank) -> Claim
    ensures { result ≡ claim_of tank }
{
    Claim {
        probe: tank.probe,
        tag: tank.tag,
        low: tank.low,
        high: tank.high,
    }
}

#[tactic(auto, unfolding(crate::specs::Decision::correction_of))]
pub fn correction_of(tank: Tank) -> Option<Claim>
    ensures { result ≡ correction_of tank }
{
    if tank.given == 0 {
        return None;
    }
    Some(claim_of(tank))
}
