// The reader of call records.

#![tactic(auto)]

ghost use Rattle.std.specs.Prelude.{◌≡◌, ℕ, ◌≤◌, ◌<◌, List, length};
ghost use Rattle.record.specs.Call.{link_by};
ghost use Rattle.record.specs.Layout.{kind_of};
ghost use Rattle.record.specs.Read.{read};
ghost use Rattle.record.specs.Meaning.{bytes_in, link_in, call_in, reading_in, PartWithin, CallWithin, ReadingWithin};
ghost use Rattle.record.specs.declared.Unread.TheVariants.{Cut};
ghost use Rattle.reader.specs.Scan.{taken_in, field_at, TakenWithin, three_in, three_at, ThreeWithin, call_of, contents_in, fields_in};

use buffers::number_at;
use fnv::Tag;
use record::{Call, Draw, Fields, First, Handle, Part, Read, Unread, has, legal_map};

// So many bytes of a field are missing.
#[derive(Clone, Copy)]
struct Missing(usize);

impl From<Missing> for Unread {
    ghost from_gives = { λ missing e. e ≡ Cut missing.0 };

    fn from(missing: Missing) -> Unread {
        Unread::Cut { missing: missing.0 }
    }
}

// The field at a position, if its bit stands: its number, 0 where its bit is down, and the position after it.
#[tactic(auto, using(record::proofs::LittleEndian::zero_below), unfolding(crate::specs::Scan::field_at))]
fn field_at(bytes: &[u8], at: usize, here: bool, width: usize) -> Result<(u64, usize), Missing>
    requires at_in_bounds { at ≤ length bytes.now }
    requires width_bound { width ≤ 8 }
    ensures result_value { taken_in result ≡ field_at bytes.now at here width }
    ensures taken_within { TakenWithin bytes.now width result }
{
    if !here {
        return Ok((0, at));
    }
    let there = bytes.len() - at;
    if there < width {
        return Err(Missing(width - there));
    }
    Ok((number_at(bytes, at, width), at + width))
}

// Three fields in a row, the first of which has the bit `bit`: they have `width`, 8 and 2 bytes. Their numbers, and the
// position after them.
#[tactic(auto, unfolding(crate::specs::Scan::three_at))]
fn three_at(
    bytes: &[u8],
    at: usize,
    map: u8,
    bit: u8,
    width: usize,
) -> Result<(u64, u64, u64, usize), Missing>
    requires at_in_bounds { at ≤ length bytes.now }
    requires bit_bound { bit < 6 }
    requires width_bound { width ≤ 8 }
    ensures result_value { three_in result ≡ three_at bytes.now at map bit width }
    ensures three_within { ThreeWithin bytes.now width result }
{
    let (first, a) = field_at(bytes, at, has(map, bit), width)?;
    let (second, b) = field_at(bytes, a, has(map, bit + 1), 8)?;
    let (third, next) = field_at(bytes, b, has(map, bit + 2), 2)?;
    Ok((first, second, third, next))
}

// The number of a chain is a tag where its first way is 2, a handle where it is 3.
#[tactic(auto, unfolding(record::specs::Meaning::link_in, record::specs::Call::link_by))]
fn first_link(way: u8, number: u64) -> First
    ensures { (identity : ℕ) → link_in identity result ≡ link_by way identity number }
{
    if way == 2 {
        return First::Logged(Tag(number));
    }
    if way == 3 {
        return First::Escrowed(Handle(number));
    }
    First::Neither { way, number }
}

// The call of a kind. The reader asks it of kinds of the table alone; for any other number it is a report.
#[tactic(auto, unfolding(crate::specs::Scan::call_of, record::specs::Meaning::call_in, record::specs::Meaning::CallWithin, record::specs::Layout::kind_of, record::specs::Layout::among, record::specs::Layout::kinds))]
fn call_of(kind: u8, f: Fields, bytes: Part) -> Call
    ensures by_index { (bs : List ℕ) → call_in bs result ≡ call_of (kind_of kind) f (bytes_in bs bytes) }
    ensures by_index_2 { (bs : List ℕ) → PartWithin bs bytes → CallWithin bs result }
{
    let place = f.place;
    let identity = f.identity;
    let offset = f.offset;
    let length = f.length;
    let number = f.number;
    match kind {
        1 => Call::Create { place, identity },
        4 => Call::Exit,
        5 => Call::HeapWrite {
            place,
            offset,
            bytes,
        },
        6 => Call::HeapRead {
            place,
            offset,
            length,
        },
        7 => Call::SharedWrite { offset, bytes },
        8 => Call::SharedRead { offset, length },
        9 => Call::Attest { offset, length },
        10 => Call::Check {
            identity,
            tag: Tag(number),
            bytes,
        },
        11 => Call::Protect {
            identity,
            offset,
            length,
            draw: Draw(number),
        },
        12 => Call::Retrieve {
            identity,
            offset,
            handle: Handle(number),
        },
        14 => Call::HandOver { place },
        15 => Call::Chain {
            identity,
            first: first_link(place, number),
            bytes,
        },
        16 => Call::Release {
            identity,
            handle: Handle(number),
        },
        _ => Call::Report,
    }
}

// The contents of the bytes field, and with them the call.
#[tactic(auto, using(crate::proofs::Positions::contents_cut, crate::proofs::Positions::ended_at), unfolding(crate::specs::Scan::contents_in, record::specs::Meaning::bytes_in, record::specs::Meaning::PartWithin))]
fn read_contents(bytes: &[u8], kind: u8, f: Fields, part: Part) -> Result<Read, Unread>
    requires { part.start ≤ length bytes.now }
    ensures result_value { reading_in bytes.now result ≡ contents_in bytes.now kind f part }
    ensures reading_within { ReadingWithin bytes.now result }
{
    let n = part.count as usize;
    let there = bytes.len() - part.start;
    if there < n {
        return Err(Unread::Cut { missing: n - there });
    }
    let end = part.start + n;
    Ok(Read {
        call: call_of(kind, f, part),
        used: end,
    })
}

// The fields of a record whose map is its kind's.
#[tactic(auto, using(crate::proofs::Positions::fields_at), unfolding(crate::specs::Scan::fields_in, crate::specs::Scan::contents_in))]
fn read_fields(bytes: &[u8], kind: u8, map: u8) -> Result<Read, Unread>
    requires { 2 ≤ length bytes.now }
    ensures result_value { reading_in bytes.now result ≡ fields_in bytes.now map kind }
    ensures reading_within { ReadingWithin bytes.now result }
{
    let (place, identity, offset, at) = three_at(bytes, 2, map, 1, 1)?;
    let (size, number, count, start) = three_at(bytes, at, map, 4, 2)?;
    let f = Fields {
        place: place as u8,
        identity,
        offset: offset as u16,
        length: size as u16,
        number,
    };
    let part = Part {
        start,
        count: count as u16,
    };
    read_contents(bytes, kind, f, part)
}

// Refusals in the order: empty, bit 0 down, no kind byte, no such kind, another map, a field cut.
#[tactic(auto, using(crate::proofs::FirstBytes::first_bytes), unfolding(crate::specs::Scan::fields_in, record::specs::Layout::map_of))]
pub fn read_call(bytes: &[u8]) -> Result<Read, Unread>
    ensures result_value { reading_in bytes.now result ≡ read bytes.now }
    ensures reading_within { ReadingWithin bytes.now result }
{
    let map = *bytes.first().ok_or(Unread::Cut { missing: 1 })?;
    if !has(map, 0) {
        return Err(Unread::UnknownKind);
    }
    let kind = *bytes.get(1).ok_or(Unread::Cut { missing: 1 })?;
    let legal = legal_map(kind).ok_or(Unread::UnknownKind)?;
    if legal != map {
        return Err(Unread::WrongMap);
    }
    read_fields(bytes, kind, map)
}
