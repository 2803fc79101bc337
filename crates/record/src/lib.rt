// Call records: a map byte, then the fields whose bit stands, lowest byte first.

#![tactic(auto)]

mod kinds;

use fnv::Tag;
pub use kinds::{has, legal_map};

#[repr(C)]
#[derive(Clone, Copy, PartialEq, Eq)]
pub struct Handle(pub u64);

#[repr(C)]
#[derive(Clone, Copy, PartialEq, Eq)]
pub struct Draw(pub u64);

// A bytes field: where it starts in the record, and how many bytes it has.
#[derive(Clone, Copy)]
pub struct Part {
    pub start: usize,
    pub count: u16,
}

// The first link of a chain, as its way says: by its tag (2), by its handle (3), or by neither, where no link has such a way.
#[derive(Clone, Copy)]
pub enum First {
    Logged(Tag),
    Escrowed(Handle),
    Neither { way: u8, number: u64 },
}

// A call: a kind and the fields of its map, no others.
#[derive(Clone, Copy)]
pub enum Call {
    Create {
        place: u8,
        identity: u64,
    },
    Exit,
    HeapWrite {
        place: u8,
        offset: u16,
        bytes: Part,
    },
    HeapRead {
        place: u8,
        offset: u16,
        length: u16,
    },
    SharedWrite {
        offset: u16,
        bytes: Part,
    },
    SharedRead {
        offset: u16,
        length: u16,
    },
    Attest {
        offset: u16,
        length: u16,
    },
    Check {
        identity: u64,
        tag: Tag,
        bytes: Part,
    },
    Protect {
        identity: u64,
        offset: u16,
        length: u16,
        draw: Draw,
    },
    Retrieve {
        identity: u64,
        offset: u16,
        handle: Handle,
    },
    Report,
    // Place 16: none runs.
    HandOver {
        place: u8,
    },
    // The first link's identity, and its tag or handle; the bytes hold the logged values.
    Chain {
        identity: u64,
        first: First,
        bytes: Part,
    },
    Release {
        identity: u64,
        handle: Handle,
    },
}

// What the reader finds: a call, and how many bytes its record has.
#[derive(Clone, Copy)]
pub struct Read {
    pub call: Call,
    pub used: usize,
}

// Why there is no call to be read.
#[derive(Clone, Copy, PartialEq, Eq)]
pub enum Unread {
    // The record ends before a field does, or is empty: so many more bytes finish that field.
    Cut { missing: usize },
    // Bit 0 of the map is down, or there is no such kind.
    UnknownKind,
    // The map isn't the kind's.
    WrongMap,
}

// The numbers in a record's fields. The reader gives 0 in a field that the map lacks; the writer ignores it.
#[repr(C)]
#[derive(Clone, Copy)]
pub struct Fields {
    pub place: u8,
    pub identity: u64,
    pub offset: u16,
    pub length: u16,
    pub number: u64,
}
