// The soundness test.

#![tactic(auto)]

ghost use Rattle.std.specs.Prelude.{◌≡◌, List, ℕ, length};
ghost use Rattle.ideal.specs.declared.BoxRecord.{BoxRecord};
ghost use Rattle.ideal.specs.declared.LogRow.{LogRow};
ghost use Rattle.ideal.specs.declared.EscrowRow.{EscrowRow};
ghost use Rattle.ideal.specs.Soundness.{tables_sized, sizes_right, sound};
ghost use Rattle.ideal.specs.Tables.{lent_tables};
ghost use Rattle.state.specs.Parts.{RestBlank};
ghost use Rattle.soundness.specs.Parts.{Counted, Lent};

use ideal::{BoxRecord, EscrowRow, LogRow};
use soundescrow::escrow_sound;
use soundlog::log_sound;
use soundplaces::places_sound;

// Whether the lent buffers of the tables are of their sizes, whatever else the tables hold.
#[tactic(auto, unfolding(ideal::specs::Soundness::tables_sized, ideal::specs::Soundness::pass))]
pub fn tables_sized(heaps: &[u8], shared: &[u8], log_values: &[u8], escrow_values: &[u8]) -> bool
    ensures { (b : BoxRecord) (log : List LogRow) (escrow : List EscrowRow) → Counted b log escrow → result ≡ tables_sized (lent_tables b log escrow heaps.now shared.now log_values.now escrow_values.now) }
{
    heaps.len() == 4096
        && shared.len() == 1024
        && log_values.len() == 4096
        && escrow_values.len() == 4096
}

// The same, and whether the output buffer is of its size.
#[tactic(auto, unfolding(ideal::specs::Soundness::sizes_right))]
pub fn sizes_right(
    heaps: &[u8],
    shared: &[u8],
    log_values: &[u8],
    escrow_values: &[u8],
    output: &[u8],
) -> bool
    ensures { (b : BoxRecord) (log : List LogRow) (escrow : List EscrowRow) → Counted b log escrow → result ≡ sizes_right (lent_tables b log escrow heaps.now shared.now log_values.now escrow_values.now) (length output.now) }
{
    tables_sized(heaps, shared, log_values, escrow_values) && output.len() == 1024
}

// Whether the box is sound, whatever the shared memory holds. Called once the sizes are right and the unused rows blank.
#[tactic(auto, using(soundness::proofs::Whole::sound_parts))]
pub fn box_sound(
    held: BoxRecord,
    log: &[LogRow],
    escrow: &[EscrowRow],
    heaps: &[u8],
    log_values: &[u8],
    escrow_values: &[u8],
) -> bool
    requires counted { (length log.now ≡ 64) × (length escrow.now ≡ 64) }
    requires lent { Lent heaps.now log_values.now escrow_values.now }
    requires rest_blank { RestBlank held log.now escrow.now }
    ensures { (shared : List ℕ) → result ≡ sound (lent_tables held log.now escrow.now heaps.now shared log_values.now escrow_values.now) }
{
    places_sound(held, heaps)
        && log_sound(log, log_values, held.log)
        && escrow_sound(escrow, escrow_values, held.escrow)
}
