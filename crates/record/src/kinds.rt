// The kinds and the bits of their maps.
ghost use Rattle.std.specs.Prelude.{◌≡◌, ◌<◌};
ghost use Rattle.record.specs.Layout.{stands, map_of};
ghost use Rattle.record.specs.Meaning.{legal_map};

// A kind's one legal map.
#[tactic(auto, unfolding(crate::specs::Layout::map_of, crate::specs::Layout::map_in, crate::specs::Layout::kind_of, crate::specs::Layout::among, crate::specs::Layout::kinds))]
pub fn legal_map(kind: u8) -> Option<u8>
    ensures { legal_map result ≡ map_of kind }
{
    match kind {
        0 | 2 | 3 | 17..=255 => None,
        1 => Some(0x07),
        4 => Some(0x01),
        5 => Some(0x4b),
        6 => Some(0x1b),
        7 => Some(0x49),
        8 => Some(0x19),
        9 => Some(0x19),
        10 => Some(0x65),
        11 => Some(0x3d),
        12 => Some(0x2d),
        13 => Some(0x01),
        14 => Some(0x03),
        15 => Some(0x67),
        16 => Some(0x25),
    }
}

// Whether a bit of the map stands.
#[tactic(auto, unfolding(crate::specs::Layout::stands))]
pub fn has(map: u8, bit: u8) -> bool
    requires { bit < 8 }
    ensures { result ≡ stands map bit }
{
    (map >> bit) % 2 == 1
}
