// Rows that a host lends: one read or put, a table's edit made on them, the unused ones tested, or all of them stored.

#![tactic(auto)]

mod escrow_rows;
mod log_rows;

ghost use Rattle.std.specs.Prelude.{◌≡◌, length};

pub use escrow_rows::{edit_escrow, escrow_row_at, escrow_unfit};
pub use log_rows::{log_row_at, log_unfit, put_log_row};

// Every lent row is written, as where a box that was saved comes back. Nothing calls it: it is there for request P11.
pub fn store_rows<R: Copy>(rows: &mut [R], table: &[R])
    requires { length rows.old ≡ length table.now }
    ensures { rows.new ≡ table.now }
{
    rows.copy_from_slice(table);
}
