// The escrow: its rows and value bytes. The tests of rows stand here and in soundlog: a trait for both kinds of row, with what
// its proofs need, came out longer than the nine lines that they share.

#![tactic(auto)]

ghost use Rattle.std.specs.Prelude.{◌≡◌, true, ◌&&◌, List, [], ℕ, ◌/◌, ◌^◌, length, drop};
ghost use Rattle.ideal.specs.State.{every};
ghost use Rattle.ideal.specs.Tables.{escrow_table, entries_of};
ghost use Rattle.ideal.specs.Soundness.{same_handle, right_mark, carries_length};
ghost use Rattle.soundness.specs.Tests.{row_sound, rows_sound, differ_before, escrow_row_right, escrow_sound};

use buffers::all_zero;
use handles::is_used;
use ideal::{EscrowRow, Used};
use record::Handle;

// The length that a handle carries. By a shift: nothing that the soundness test runs divides, since hosts have machines on
// which that is dear.
fn length_of(handle: Handle) -> u64
    ensures { result ≡ handle.0 / 2 ^ 48 }
{
    handle.0 >> 48
}

// Whether the mark is 0, and the handle carries the row's length; or the mark is 1, and the length 0.
#[tactic(auto, unfolding(ideal::specs::Soundness::right_mark, ideal::specs::Soundness::carries_length))]
fn length_right(row: EscrowRow) -> bool
    ensures { result ≡ right_mark row && carries_length row }
{
    match row.mark {
        0 => length_of(row.handle) == row.length as u64,
        1 => row.length == 0,
        _ => false,
    }
}

// Whether a row begins at `at` and is right by itself.
#[tactic(auto, unfolding(soundness::specs::Tests::row_sound, soundness::specs::Tests::escrow_row_right, ideal::specs::Soundness::has_identities))]
fn row_sound(row: EscrowRow, at: usize) -> bool
    ensures { result ≡ row_sound escrow_table escrow_row_right at row }
{
    row.first as usize == at
        && row.length <= 256
        && row.source != 0
        && row.recipient != 0
        && length_right(row)
}

// Whether the rows are right and one after the other, from 0 to `end`.
#[tactic(auto, using(soundness::proofs::Rows::rows_step, soundness::proofs::Rows::rows_more, soundness::proofs::Rows::rows_ended))]
fn rows_sound(rows: &[EscrowRow], end: usize) -> bool
    ensures { result ≡ rows_sound escrow_table escrow_row_right end 0 rows.now }
{
    let mut at: usize = 0;
    for row in rows {
        if !row_sound(*row, at) {
            return false;
        }
        at = row.first as usize + row.length as usize;
    }
    at == end
}

// Whether no row has the handle of one before it, whatever the values: by slots and never inlined, as in the log.
#[inline(never)]
fn handles_differ(rows: &[EscrowRow]) -> bool
    ensures { (values : List ℕ) → result ≡ differ_before same_handle [] (entries_of escrow_table values rows.now) }
{
    let mut seen = [false; 1024];
    for (i, row) in rows.iter().enumerate() {
        let slot = (row.handle.0 & 1023) as usize;
        if seen[slot] && is_used(&rows[..i], row.handle) {
            return false;
        }
        seen[slot] = true;
    }
    true
}

// As log_sound.
#[tactic(auto, using(soundness::proofs::Blank::too_many_rows, soundness::proofs::Blank::too_many_bytes, soundness::proofs::Blank::parts, soundness::proofs::Differ::few_differ), unfolding(soundness::specs::Tests::escrow_sound))]
pub fn escrow_sound(rows: &[EscrowRow], values: &[u8], used: Used) -> bool
    requires { (length rows.now ≡ 64) × (length values.now ≡ 4096) × (every escrow_table.is_blank (drop used.rows rows.now) ≡ true) }
    ensures { result ≡ escrow_sound rows.now values.now used }
{
    if used.rows > 64 || used.bytes > 4096 {
        return false;
    }
    let rows = &rows[..used.rows as usize];
    let end = used.bytes as usize;
    all_zero(&values[end..]) && rows_sound(rows, end) && (rows.len() < 2 || handles_differ(rows))
}
