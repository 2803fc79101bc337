// Attest and check.

#![tactic(auto)]

ghost use Rattle.std.specs.Prelude.{◌≡◌, ◌≤◌, length};
ghost use Rattle.ideal.specs.Tables.{log_table};
ghost use Rattle.state.specs.Counts.{Room};
ghost use Rattle.state.specs.Edits.{stored, log_store, more};
ghost use Rattle.state.specs.Parts.{TableFits};
ghost use Rattle.state.specs.Refusals.{answer_in, change_in};
ghost use Rattle.attesting.specs.Narrow.{attest_value, attest_on, check_on};

use buffers::put;
use fnv::{Tag, tag_of};
use ideal::{BoxRecord, LogRow};
use pairs::in_log;
use state::{
    Change, Edits, LogEdit, Refusal, accepted, heap_part, is_full, raised, running_place, unedited,
};

// One row and its value more.
// It and escrow::escrow_more stay two: they share `raised`, and a trait for the rest, which is fields, would be longer than both.
#[tactic(auto, unfolding(state::specs::Edits::more))]
fn log_more(held: BoxRecord, values: &mut [u8], identity: u64, tag: Tag, value: &[u8]) -> Change
    requires { (length values.old ≡ 4096) × Room held.log (length value.now) }
    ensures { stored result values.new ≡ more log_store held values.old (record { identity = identity; tag = tag }) value.now }
{
    let used = held.log;
    let size = value.len() as u16;
    put(value, values, used.bytes as usize);
    let row = LogRow {
        identity,
        tag,
        first: used.bytes,
        length: size,
    };
    let log = LogEdit {
        at: used.rows as usize,
        row,
    };
    Change {
        held: BoxRecord {
            log: raised(used, size),
            ..held
        },
        edits: Edits {
            log: Some(log),
            escrow: None,
        },
        answer: accepted(tag.0),
    }
}

// A value attested with its tag: a pair already logged adds no row, even when the log is full.
#[tactic(auto, using(state::proofs::Parts::used_fit, state::proofs::Rooms::has_room), unfolding(crate::specs::Narrow::attest_value, crate::specs::Narrow::attested, state::specs::Edits::unless, state::specs::Answers::settled, ideal::specs::Step::first_holding))]
fn attest_value(
    held: BoxRecord,
    log: &[LogRow],
    values: &mut [u8],
    identity: u64,
    tag: Tag,
    value: &[u8],
) -> Result<Change, Refusal>
    requires { (length log.now ≡ 64) × TableFits log_table held.log log.now values.old × (length value.now ≤ 256) }
    ensures { stored (change_in held result) values.new ≡ attest_value held log.now values.old identity tag value.now }
{
    let used = held.log;
    if in_log(&log[..used.rows as usize], values, identity, tag, value) {
        return Ok(unedited(held, accepted(tag.0)));
    }
    if is_full(used, value.len()) {
        return Err(Refusal::LogFull);
    }
    Ok(log_more(held, values, identity, tag, value))
}

// Attests a part of the running heap: that middle part of the lent heaps goes to the tag and to the log.
#[tactic(auto, using(ideal::proofs::Table::part_length), unfolding(crate::specs::Narrow::attest_on, crate::specs::Narrow::attest_refusal, crate::specs::Narrow::attest_value, state::specs::Edits::unless, state::specs::Answers::settled, ideal::specs::Step::first_holding, ideal::specs::Step::beyond))]
pub fn attest(
    held: BoxRecord,
    log: &[LogRow],
    heaps: &[u8],
    values: &mut [u8],
    offset: u16,
    size: u16,
) -> Result<Change, Refusal>
    requires { (held.running ≤ 16) × (length log.now ≡ 64) × (length heaps.now ≡ 4096) × TableFits log_table held.log log.now values.old }
    ensures { stored (change_in held result) values.new ≡ attest_on held log.now heaps.now values.old offset size }
{
    let place = running_place(held.running)?;
    let (start, end) = heap_part(place, offset, size)?;
    let identity = held.identities[place];
    let tag = tag_of(identity, &heaps[start..end]);
    attest_value(held, log, values, identity, tag, &heaps[start..end])
}

// 1 if identity, tag and value are a log row, else 0. No row has more than 256 bytes, so no longer value is found.
#[tactic(auto, using(state::proofs::Parts::used_fit), unfolding(crate::specs::Narrow::check_on, state::specs::Answers::answered, ideal::specs::Step::first_holding))]
pub fn check_pair(
    held: BoxRecord,
    log: &[LogRow],
    values: &[u8],
    identity: u64,
    tag: Tag,
    value: &[u8],
) -> Result<u64, Refusal>
    requires { (length log.now ≡ 64) × TableFits log_table held.log log.now values.now }
    ensures { answer_in result ≡ check_on held log.now values.now identity tag value.now }
{
    if identity == 0 {
        return Err(Refusal::NoIdentity);
    }
    let rows = &log[..held.log.rows as usize];
    let logged = in_log(rows, values, identity, tag, value);
    Ok(u64::from(logged))
}
