// A chain of custody: from link to link, logged or escrowed, to the value that ends it.

#![tactic(auto)]

mod custody;

ghost use Rattle.std.specs.Prelude.{◌≡◌, ◌-◌, ◌≤◌, not, List, ℕ, eqb, length, IfErr};
ghost use Rattle.record.specs.Call.{logged_link, escrowed_link};
ghost use Rattle.record.specs.Meaning.{link_in};
ghost use Rattle.ideal.specs.Step.{head_of, accept, ◌then◌, first_holding};
ghost use Rattle.ideal.specs.Tables.{log_table, escrow_table};
ghost use Rattle.state.specs.Answers.{answered};
ghost use Rattle.state.specs.Parts.{TableFits};
ghost use Rattle.state.specs.Refusals.{answer_in};
ghost use Rattle.chain.specs.Meaning.{log_in, found_in, head_in, in_chain, in_escrow};
ghost use Rattle.chain.specs.Narrow.{next_of, vouched, chain_from, chain_answer};

use buffers::{counted_at, number_at};
use custody::Custody;
use fnv::Tag;
use ideal::{BoxRecord, EscrowRow, LogRow};
use pairs::in_log;
use record::{First, Handle};
use retrieval::find_row;
use state::{Refusal, running_place};

// What a value's head says: the chain ends, or which link is next.
#[derive(Clone, Copy)]
enum Head {
    End,
    Logged(u64, Tag),
    Escrowed(u64, Handle),
}

// A way byte, and 16 bytes behind it where the chain doesn't end: the next link's identity, then its tag or handle.
#[tactic(auto, unfolding(ideal::specs::Step::head_of, record::specs::Call::link_by))]
fn head_of(value: &[u8]) -> Result<Head, Refusal>
    ensures value { head_in result ≡ head_of value.now }
    ensures malformed { IfErr result (λ r. r ≡ Refusal.Malformed) }
{
    match value {
        [1, ..] => Ok(Head::End),
        [2, link @ ..] if link.len() >= 16 => {
            Ok(Head::Logged(number_at(link, 0, 8), Tag(number_at(link, 8, 8))))
        }
        [3, link @ ..] if link.len() >= 16 => {
            Ok(Head::Escrowed(number_at(link, 0, 8), Handle(number_at(link, 8, 8))))
        }
        _ => Err(Refusal::Malformed),
    }
}

// The next logged value of the chain bytes, after its count of 2 bytes, and those behind it.
#[tactic(auto, unfolding(buffers::specs::Counted::counted_at, ideal::specs::Step::next_cut, ideal::specs::Step::next_count, ideal::specs::Step::next_value))]
fn next_value(chain: &[u8]) -> Result<(&[u8], &[u8]), Refusal>
    ensures { in_chain result ≡ next_of chain.now }
{
    let (start, end) = counted_at(chain, 0).ok_or(Refusal::Malformed)?;
    Ok((&chain[start..end], &chain[end..]))
}

// A logged link's value stands in the chain bytes, and the check must say yes: a right tag is no proof that it was logged.
#[tactic(auto, unfolding(crate::specs::Narrow::vouched, ideal::specs::Step::first_holding, state::specs::Answers::settled, ideal::specs::Step::unreadable, ideal::specs::Step::unvouched, ideal::specs::Step::link_value, ideal::specs::Step::bytes_after, record::specs::Call::identity_of))]
fn logged_value<'a>(
    custody: &Custody<'_>,
    identity: u64,
    tag: Tag,
    chain: &'a [u8],
) -> Result<(&'a [u8], &'a [u8]), Refusal>
    ensures { in_chain result ≡ vouched (log_in custody.now) (found_in custody.now) (logged_link identity tag) chain.now }
{
    let (value, rest) = next_value(chain)?;
    if identity == 0 {
        return Err(Refusal::NoIdentity);
    }
    if !in_log(custody.log, custody.log_values, identity, tag, value) {
        return Err(Refusal::NotVouched);
    }
    Ok((value, rest))
}

// An escrowed link's value is what its source escrowed for the caller, the running program, under the handle.
#[tactic(auto, using(retrieval::proofs::Search::given, retrieval::proofs::Search::not_given), unfolding(retrieval::specs::Search::entry_found, crate::specs::Narrow::vouched, ideal::specs::Step::first_holding, state::specs::Answers::settled, ideal::specs::Step::unreadable, ideal::specs::Step::unvouched, ideal::specs::Step::absent, ideal::specs::Step::value_in, ideal::specs::Step::link_value, ideal::specs::Step::bytes_after, record::specs::Call::identity_of, ideal::specs::Fit::RowsFit))]
fn escrowed_value<'a>(
    custody: &Custody<'a>,
    identity: u64,
    handle: Handle,
) -> Result<&'a [u8], Refusal>
    ensures { (chain : List ℕ) → in_escrow chain result ≡ vouched (log_in custody.now) (found_in custody.now) (escrowed_link identity handle) chain }
{
    if identity == 0 {
        return Err(Refusal::NoIdentity);
    }
    let i = find_row(custody.escrow, handle, identity, custody.caller).ok_or(Refusal::NotVouched)?;
    let row = custody.escrow[i];
    let start = row.first as usize;
    let end = start + row.length as usize;
    Ok(&custody.escrow_values[start..end])
}

// The number of links at the chain's end, where no chain byte may be left over. `left` counts what was still allowed at the
// last link, so 16 - left links came before it.
#[tactic(auto, unfolding(ideal::specs::Step::first_holding, state::specs::Answers::answered))]
fn ended(left: u64, over: &[u8]) -> Result<u64, Refusal>
    requires { left ≤ 16 }
    ensures { answer_in result ≡ answered (first_holding ((19, not (eqb (length over.now) 0)) then accept)) (17 - left) }
{
    if !over.is_empty() {
        return Err(Refusal::Malformed);
    }
    Ok(17 - left)
}

// A logged link and all that come after it, where left may still be followed.
#[cycle(escrowed_link_logged_link)]
#[tactic(auto, using(crate::proofs::Links::none_left, crate::proofs::Links::one))]
fn logged_link(
    custody: &Custody<'_>,
    left: u64,
    identity: u64,
    tag: Tag,
    chain: &[u8],
) -> Result<u64, Refusal>
    requires { left ≤ 16 }
    ensures { answer_in result ≡ chain_from custody.now left (logged_link identity tag) chain.now }
{
    if left == 0 {
        return Err(Refusal::LongChain);
    }
    let more = left - 1;
    let (value, rest) = logged_value(custody, identity, tag, chain)?;
    match head_of(value)? {
        Head::End => ended(left, rest),
        Head::Logged(i, t) => logged_link(custody, more, i, t, rest),
        Head::Escrowed(i, h) => escrowed_link(custody, more, i, h, rest),
    }
}

// An escrowed link and all that come after it: no chain byte is its own.
#[cycle(escrowed_link_logged_link)]
#[tactic(auto, using(crate::proofs::Links::none_left, crate::proofs::Links::one))]
fn escrowed_link(
    custody: &Custody<'_>,
    left: u64,
    identity: u64,
    handle: Handle,
    chain: &[u8],
) -> Result<u64, Refusal>
    requires { left ≤ 16 }
    ensures { answer_in result ≡ chain_from custody.now left (escrowed_link identity handle) chain.now }
{
    if left == 0 {
        return Err(Refusal::LongChain);
    }
    let more = left - 1;
    let value = escrowed_value(custody, identity, handle)?;
    match head_of(value)? {
        Head::End => ended(left, chain),
        Head::Logged(i, t) => logged_link(custody, more, i, t, chain),
        Head::Escrowed(i, h) => escrowed_link(custody, more, i, h, chain),
    }
}

// How many links the chain has that starts with this link of this identity; sixteen are followed at most.
#[tactic(auto, using(state::proofs::Parts::used_fit, crate::proofs::Links::one_runs), unfolding(record::specs::Meaning::link_in, crate::specs::Narrow::chain_answer, crate::specs::Narrow::chain_refusal, ideal::specs::Step::first_holding, ideal::specs::Step::follow, ideal::specs::Step::unreadable, state::specs::Answers::answered))]
pub fn follow_chain(
    held: BoxRecord,
    log: &[LogRow],
    escrow: &[EscrowRow],
    log_values: &[u8],
    escrow_values: &[u8],
    identity: u64,
    first: First,
    bytes: &[u8],
) -> Result<u64, Refusal>
    requires { (held.running ≤ 16) × (length log.now ≡ 64) × (length escrow.now ≡ 64) × TableFits log_table held.log log.now log_values.now × TableFits escrow_table held.escrow escrow.now escrow_values.now }
    ensures { answer_in result ≡ chain_answer held log.now escrow.now log_values.now escrow_values.now (link_in identity first) bytes.now }
{
    let place = running_place(held.running)?;
    let custody = &Custody {
        log: &log[..held.log.rows as usize],
        escrow: &escrow[..held.escrow.rows as usize],
        log_values,
        escrow_values,
        caller: held.identities[place],
    };
    match first {
        First::Logged(tag) => logged_link(custody, 16, identity, tag, bytes),
        First::Escrowed(handle) => escrowed_link(custody, 16, identity, handle, bytes),
        First::Neither { .. } => Err(Refusal::Malformed),
    }
}
