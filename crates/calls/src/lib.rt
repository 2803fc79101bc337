// The box's entry: a record's bytes are read and carried out on the box that a host hands in.

#![tactic(auto)]

mod dispatch;

ghost use Rattle.std.specs.Prelude.{◌≡◌, length};
ghost use Rattle.ideal.specs.LevelOne.{box_of};
ghost use Rattle.ideal.specs.Tables.{lent_tables};
ghost use Rattle.state.specs.Parts.{RestBlank};
ghost use Rattle.state.specs.Answers.{refused_with};
ghost use Rattle.state.specs.Edits.{unchanged, EditsBy};
ghost use Rattle.calls.specs.Buffers.{tables_in, SoundIn, result_in, SameBuffers};
ghost use Rattle.calls.specs.Entry.{with_used, cut_with, ready_on, sound_on, entry_on};

pub use dispatch::carry_out_in;
use ideal::{BoxRecord, EscrowRow, LogRow, Profile};
use reader::read_call;
use record::Unread;
use sound::{box_sound, sizes_right};
use state::{Change, Refusal, refuse};

// The buffers that a host lends for a call.
#[derive(Drop)]
pub struct Buffers<'a> {
    pub heaps: &'a mut [u8],
    pub shared: &'a mut [u8],
    pub log_values: &'a mut [u8],
    pub escrow_values: &'a mut [u8],
    pub output: &'a mut [u8],
}

// The change of a call whose record has so many bytes. The first identity is stored over itself: the compiler then sees the
// record in parts that it moves without a call of memcpy (docs/DECISIONS.md).
fn with_used(change: Change, used: usize) -> Change
    ensures { result ≡ with_used change used }
{
    let old = change.held;
    let mut held = change.held;
    held.identities[0] = old.identities[0];
    let mut next = change;
    next.answer.used = used;
    next.held = held;
    next
}

// The refusal of a cut record.
fn refuse_cut(held: BoxRecord, missing: usize) -> Change
    ensures { result ≡ unchanged held (cut_with missing) }
{
    let mut change = refuse(held, Refusal::Cut.number());
    change.answer.number = missing as u64;
    change
}

// The refusal of buffers that are not of their sizes, and of a box that isn't sound.
fn refuse_unsound(held: BoxRecord) -> Change
    ensures { result ≡ unchanged held (refused_with 15) }
{
    refuse(held, Refusal::Unsound.number())
}

// Whether the lent buffers are of their sizes and the box is sound, where its unused rows are blank. The buffers are lent to be
// read alone.
pub fn is_ready(
    held: BoxRecord,
    log: &[LogRow],
    escrow: &[EscrowRow],
    heaps: &[u8],
    shared: &[u8],
    log_values: &[u8],
    escrow_values: &[u8],
    output: &[u8],
) -> bool
    requires counted { (length log.now ≡ 64) × (length escrow.now ≡ 64) }
    requires rest_blank { RestBlank held log.now escrow.now }
    ensures { result ≡ ready_on (lent_tables held log.now escrow.now heaps.now shared.now log_values.now escrow_values.now) (length output.now) }
{
    sizes_right(heaps, shared, log_values, escrow_values, output)
        && box_sound(held, log, escrow, heaps, log_values, escrow_values)
}

// The same of the buffers of a call.
pub fn is_ready_in(held: BoxRecord, log: &[LogRow], escrow: &[EscrowRow], lent: &Buffers) -> bool
    requires counted { (length log.now ≡ 64) × (length escrow.now ≡ 64) }
    requires rest_blank { RestBlank held log.now escrow.now }
    ensures { result ≡ ready_on (tables_in held log.now escrow.now lent.now) (length lent.now.output.now) }
{
    is_ready(
        held,
        log,
        escrow,
        lent.heaps,
        lent.shared,
        lent.log_values,
        lent.escrow_values,
        lent.output,
    )
}

// One record in a profile on a box that is known to be sound, with buffers of their sizes.
pub fn call_sound(
    profile: Profile,
    held: BoxRecord,
    log: &[LogRow],
    escrow: &[EscrowRow],
    lent: &mut Buffers,
    bytes: &[u8],
) -> Change
    requires { SoundIn held log.now escrow.now lent.old }
    ensures same_buffers { SameBuffers lent.old lent.new }
    ensures output_after { result_in log.now escrow.now result lent.new
        ≡ sound_on profile (tables_in held log.now escrow.now lent.old) bytes.now lent.old.output.now }
    ensures edits_by { EditsBy held escrow.now result.held result.edits }
{
    match read_call(bytes) {
        Ok(read) => {
            let change = carry_out_in(profile, held, log, escrow, lent, bytes, read.call);
            with_used(change, read.used)
        }
        Err(Unread::Cut { missing }) => refuse_cut(held, missing),
        Err(Unread::UnknownKind) => refuse(held, Refusal::UnknownKind.number()),
        Err(Unread::WrongMap) => refuse(held, Refusal::WrongMap.number()),
    }
}

// One record in a profile on any box whose unused rows are blank, with buffers of any length.
pub fn call(
    profile: Profile,
    held: BoxRecord,
    log: &[LogRow],
    escrow: &[EscrowRow],
    lent: &mut Buffers,
    bytes: &[u8],
) -> Change
    requires counted { (length log.now ≡ 64) × (length escrow.now ≡ 64) }
    requires rest_blank { RestBlank held log.now escrow.now }
    ensures same_buffers { SameBuffers lent.old lent.new }
    ensures output_after { result_in log.now escrow.now result lent.new
        ≡ entry_on (box_of profile) (tables_in held log.now escrow.now lent.old) bytes.now lent.old.output.now }
    ensures edits_by { EditsBy held escrow.now result.held result.edits }
{
    if !is_ready_in(held, log, escrow, lent) {
        return refuse_unsound(held);
    }
    call_sound(profile, held, log, escrow, lent, bytes)
}
