// Level one's own refusals (document 02, P5). Each comes before any change to the box, so that a call is asked about here
// first, and then carried out as in the full box.

#![tactic(auto)]

ghost use Rattle.std.specs.Prelude.{◌≡◌, ◌+◌, ◌≤◌, length};
ghost use Rattle.ideal.specs.State.{any};
ghost use Rattle.ideal.specs.Tables.{log_table, entry_of, entries_of};
ghost use Rattle.ideal.specs.Fit.{RowsFit};
ghost use Rattle.ideal.specs.LevelOne.{is_other};
ghost use Rattle.state.specs.Parts.{TableFits};
ghost use Rattle.state.specs.Refusals.{number_in};
ghost use Rattle.levels.specs.Narrow.{place_barred, attest_barred, barred_on, own_refusal};

use buffers::same;
use ideal::{BoxRecord, LogRow, Profile};
use record::Call;
use state::{Refusal, heap_part, running_place};

// Whether a row is of this identity, with another value.
#[tactic(auto, unfolding(ideal::specs::LevelOne::is_other))]
fn row_is_other(row: &LogRow, values: &[u8], identity: u64, value: &[u8]) -> bool
    requires { row.now.first + row.now.length ≤ length values.now }
    ensures { result ≡ is_other identity value.now (entry_of log_table values.now row.now) }
{
    let start = row.first as usize;
    let end = start + row.length as usize;
    row.identity == identity && !same(&values[start..end], value)
}

// Whether one of the rows is.
#[tactic(auto, unfolding(ideal::specs::Fit::RowsFit, lists::specs::Lists::any, ideal::specs::Tables::entries_of))]
fn other_in_log(rows: &[LogRow], values: &[u8], identity: u64, value: &[u8]) -> bool
    requires { RowsFit log_table rows.now (length rows.now) (length values.now) }
    ensures { result ≡ any (is_other identity value.now) (entries_of log_table values.now rows.now) }
{
    for row in rows {
        if row_is_other(row, values, identity, value) {
            return true;
        }
    }
    false
}

// Refuses an attest where a program runs, the part is within its heap, and it has a row with another value.
#[tactic(auto, using(state::proofs::Parts::used_fit), unfolding(crate::specs::Narrow::attest_barred, ideal::specs::Step::beyond))]
fn attest_barred(
    held: BoxRecord,
    log: &[LogRow],
    heaps: &[u8],
    values: &[u8],
    offset: u16,
    size: u16,
) -> Result<(), Refusal>
    requires { (held.running ≤ 16) × (length log.now ≡ 64) × (length heaps.now ≡ 4096) × TableFits log_table held.log log.now values.now }
    ensures { number_in result ≡ attest_barred held log.now heaps.now values.now offset size }
{
    let Ok(place) = running_place(held.running) else {
        return Ok(());
    };
    let Ok((start, end)) = heap_part(place, offset, size) else {
        return Ok(());
    };
    let identity = held.identities[place];
    let rows = &log[..held.log.rows as usize];
    if other_in_log(rows, values, identity, &heaps[start..end]) {
        return Err(Refusal::SecondValue);
    }
    Ok(())
}

// Refuses a place of 4 to 15, in a create and in a hand over. Beyond them is 6, and hand over's 16.
#[tactic(auto, unfolding(crate::specs::Narrow::place_barred))]
fn place_barred(place: u8) -> Result<(), Refusal>
    ensures { number_in result ≡ place_barred place }
{
    if (4..=15).contains(&place) {
        return Err(Refusal::HighPlace);
    }
    Ok(())
}

// Level one's own refusal of a call.
#[tactic(auto, unfolding(crate::specs::Narrow::barred_on))]
fn barred_with(
    held: BoxRecord,
    log: &[LogRow],
    heaps: &[u8],
    values: &[u8],
    called: Call,
) -> Result<(), Refusal>
    requires { (held.running ≤ 16) × (length log.now ≡ 64) × (length heaps.now ≡ 4096) × TableFits log_table held.log log.now values.now }
    ensures { number_in result ≡ barred_on held log.now heaps.now values.now called }
{
    match called {
        Call::Create { place, .. } | Call::HandOver { place } => place_barred(place),
        Call::Attest { offset, length } => attest_barred(held, log, heaps, values, offset, length),
        Call::Protect { .. } | Call::Retrieve { .. } | Call::Chain { .. } | Call::Release { .. } =>
            Err(Refusal::NoSuchCall),
        _ => Ok(()),
    }
}

// What refuses a call in a profile before the full box's tests do.
#[tactic(auto, unfolding(crate::specs::Narrow::own_refusal))]
pub fn own_refusal(
    profile: Profile,
    held: BoxRecord,
    log: &[LogRow],
    heaps: &[u8],
    values: &[u8],
    called: Call,
) -> Result<(), Refusal>
    requires { (held.running ≤ 16) × (length log.now ≡ 64) × (length heaps.now ≡ 4096) × TableFits log_table held.log log.now values.now }
    ensures { number_in result ≡ own_refusal profile held log.now heaps.now values.now called }
{
    match profile {
        Profile::Full => Ok(()),
        Profile::LevelOne => barred_with(held, log, heaps, values, called),
    }
}
