// The box record and the rows that a host holds, and the profiles of the box.

#![tactic(auto)]

use fnv::Tag;
use record::Handle;

// The bytes of a heap: place p has those from HEAP times p.
pub const HEAP: usize = 256;

// The used-counts of a table.
#[repr(C)]
#[derive(Clone, Copy)]
pub struct Used {
    pub rows: u16,
    pub bytes: u16,
}

// Bit p of taken stands when place p is taken; running is 0 to 15, or 16 when none runs.
#[repr(C)]
#[derive(Clone, Copy)]
pub struct BoxRecord {
    pub taken: u16,
    pub running: u8,
    pub identities: [u64; 16],
    pub log: Used,
    pub escrow: Used,
}

#[repr(C)]
#[derive(Clone, Copy)]
pub struct LogRow {
    pub identity: u64,
    pub tag: Tag,
    pub first: u16,
    pub length: u16,
}

// The mark is 0, and 1 once the value is released (document 02, P8): a byte, since what a host lends may hold anything.
#[repr(C)]
#[derive(Clone, Copy)]
pub struct EscrowRow {
    pub source: u64,
    pub recipient: u64,
    pub handle: Handle,
    pub first: u16,
    pub length: u16,
    pub mark: u8,
}

// Which box: the full one, or the one for level-one papers (document 02, P5).
#[derive(Clone, Copy)]
pub enum Profile {
    Full,
    LevelOne,
}
