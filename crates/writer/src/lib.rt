// The writer: the record of a call, at the front of a lent buffer.

#![tactic(auto)]

ghost use Rattle.std.specs.Prelude.{◌≡◌, false, ◌+◌, ◌≤◌, ◌<◌, [], ◌∷◌, ◌++◌, length};
ghost use Rattle.std.proofs.lemmas.List.Edits.{sets};
ghost use Rattle.fnv.specs.Fnv.{little};
ghost use Rattle.record.specs.Layout.{kind_of, gives, map_of, stands};
ghost use Rattle.record.specs.Write.{only, record_in, too_many, write_on};
ghost use Rattle.record.specs.Size.{field_size, record_size};
ghost use Rattle.writer.specs.Results.{wrote_on, unwritten_code};

use buffers::{put, put_number};
use record::{Fields, has, legal_map};

// Why the writer writes no record, with document 01's numbers.
#[derive(Clone, Copy, PartialEq, Eq)]
pub enum Unwritten {
    // There is no such kind.
    UnknownKind = 2,
    // The buffer is shorter than the record, or the bytes are more than a count of 2 bytes can say.
    NoRoom = 17,
}

impl Unwritten {
    pub fn number(self) -> u8
        ensures { result ≡ unwritten_code self }
    {
        self as u8
    }
}

// How many bytes a field of this width takes: none where its bit is down.
#[tactic(auto, unfolding(record::specs::Size::field_size))]
fn field_size(map: u8, bit: u8, width: usize) -> usize
    requires { bit < 8 }
    ensures { result ≡ field_size map bit width }
{
    if has(map, bit) { width } else { 0 }
}

// A field, where its bit stands; returns where the next one goes.
#[tactic(auto, using(record::proofs::Sizes::present, record::proofs::Sizes::absent), unfolding(record::specs::Write::only))]
fn put_field(out: &mut [u8], at: usize, map: u8, bit: u8, width: usize, x: u64) -> usize
    requires { (bit < 8) × (at + field_size map bit width ≤ length out.old) }
    ensures next { result ≡ at + field_size map bit width }
    ensures stored { out.new ≡ sets out.old at (only (stands map bit) (little width x)) }
{
    if has(map, bit) {
        put_number(out, at, width, x);
        at + width
    } else {
        at
    }
}

// The bytes field, where its bit stands: their count, and then the bytes.
#[tactic(auto, using(record::proofs::Sizes::present, record::proofs::LittleEndian::length_little, record::proofs::Stores::sets_append), unfolding(record::specs::Write::only))]
fn put_bytes(out: &mut [u8], at: usize, map: u8, bytes: &[u8])
    requires { at + field_size map 6 (2 + length bytes.now) ≤ length out.old }
    ensures { out.new
        ≡ sets out.old at (only (stands map 6) (little 2 (length bytes.now) ++ bytes.now)) }
{
    if has(map, 6) {
        put_number(out, at, 2, bytes.len() as u64);
        put(bytes, out, at + 2);
    }
}

// The map, and then the kind.
fn put_head(out: &mut [u8], map: u8, kind: u8)
    requires { 2 ≤ length out.old }
    ensures { out.new ≡ sets out.old 0 (map ∷ kind ∷ []) }
{
    out[0] = map;
    out[1] = kind;
}

// The whole record of a kind, whose map is `map`.
#[tactic(auto, unfolding(record::specs::Size::record_size))]
fn put_record(out: &mut [u8], map: u8, kind: u8, fields: Fields, bytes: &[u8])
    requires { (map_of kind ≡ gives map) × (record_size map (length bytes.now) ≤ length out.old) }
    ensures { out.new ≡ sets out.old 0 (record_in (kind_of kind) fields bytes.now) }
{
    put_head(out, map, kind);
    let a = put_field(out, 2, map, 1, 1, fields.place as u64);
    let b = put_field(out, a, map, 2, 8, fields.identity);
    let c = put_field(out, b, map, 3, 2, fields.offset as u64);
    let d = put_field(out, c, map, 4, 2, fields.length as u64);
    let e = put_field(out, d, map, 5, 8, fields.number);
    put_bytes(out, e, map, bytes);
}

// More bytes than a count of 2 bytes can say, for a record with a bytes field.
fn too_many(map: u8, count: usize) -> bool
    ensures { result ≡ too_many map count }
{
    has(map, 6) && 65535 < count
}

// The length of a record.
#[tactic(auto, using(record::proofs::Sizes::small, record::proofs::Sizes::present, record::proofs::Sizes::absent), unfolding(record::specs::Size::record_size))]
fn record_size(map: u8, count: usize) -> usize
    requires { too_many map count ≡ false }
    ensures { result ≡ record_size map count }
{
    let front = 2
        + field_size(map, 1, 1)
        + field_size(map, 2, 8)
        + field_size(map, 3, 2)
        + field_size(map, 4, 2)
        + field_size(map, 5, 8);
    if has(map, 6) {
        front + 2 + count
    } else {
        front
    }
}

// The record of a call of this kind, at the front of out; its length. Fields and bytes that the kind's map lacks do not matter.
#[tactic(auto, using(record::proofs::Writing::write_unknown), unfolding(record::specs::Write::refused_write))]
pub fn write_call(
    kind: u8,
    fields: Fields,
    bytes: &[u8],
    out: &mut [u8],
) -> Result<usize, Unwritten>
    ensures { wrote_on result out.new ≡ write_on kind fields bytes.now out.old }
{
    let map = legal_map(kind).ok_or(Unwritten::UnknownKind)?;
    if too_many(map, bytes.len()) {
        return Err(Unwritten::NoRoom);
    }
    let size = record_size(map, bytes.len());
    if out.len() < size {
        return Err(Unwritten::NoRoom);
    }
    put_record(out, map, kind, fields, bytes);
    Ok(size)
}
