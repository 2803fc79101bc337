// A fresh box: all zeros with running place 16.
ghost use Rattle.std.specs.Prelude.{◌≡◌};
ghost use Rattle.ideal.specs.Tables.{fresh_tables, log_table, escrow_table};

use fnv::Tag;
use ideal::{BoxRecord, EscrowRow, LogRow, Used};
use record::Handle;

#[tactic(auto, unfolding(ideal::specs::Tables::fresh_tables))]
pub fn fresh_record() -> BoxRecord
    ensures { result ≡ fresh_tables.box }
{
    let identities = [0u64; 16];
    let used = Used { rows: 0, bytes: 0 };
    BoxRecord {
        taken: 0,
        running: 16,
        identities,
        log: used,
        escrow: used,
    }
}

pub fn blank_log_row() -> LogRow
    ensures { result ≡ log_table.blank }
{
    LogRow {
        identity: 0,
        tag: Tag(0),
        first: 0,
        length: 0,
    }
}

pub fn blank_escrow_row() -> EscrowRow
    ensures { result ≡ escrow_table.blank }
{
    EscrowRow {
        source: 0,
        recipient: 0,
        handle: Handle(0),
        first: 0,
        length: 0,
        mark: 0,
    }
}

#[tactic(auto, unfolding(ideal::specs::Tables::fresh_tables))]
pub fn fresh_log() -> [LogRow; 64]
    ensures { result ≡ fresh_tables.log_rows }
{
    [blank_log_row(); 64]
}

#[tactic(auto, unfolding(ideal::specs::Tables::fresh_tables))]
pub fn fresh_escrow() -> [EscrowRow; 64]
    ensures { result ≡ fresh_tables.escrow_rows }
{
    [blank_escrow_row(); 64]
}
