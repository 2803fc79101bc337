// What the links of a chain are looked up in. A file of its own: what names the struct in specs/ can't be imported beside it.
ghost use Rattle.std.specs.Prelude.{length};
ghost use Rattle.ideal.specs.Fit.{RowsFit};
ghost use Rattle.ideal.specs.Tables.{log_table, escrow_table};
ghost use Rattle.chain.specs.Rows.{RowsFit_prop};

use ideal::{EscrowRow, LogRow};

// The used rows of both tables, with the bytes of their values, and the program that runs.
#[derive(Clone, Copy)]
pub struct Custody<'a> {
    pub log: &'a [LogRow],
    pub escrow: &'a [EscrowRow],
    pub log_values: &'a [u8],
    pub escrow_values: &'a [u8],
    pub caller: u64,
    pub ghost log_fits: { RowsFit log_table log.now (length log.now) (length log_values.now) } by { RowsFit_prop _ _ _ _ },
    pub ghost escrow_fits: { RowsFit escrow_table escrow.now (length escrow.now) (length escrow_values.now) } by { RowsFit_prop _ _ _ _ },
}
