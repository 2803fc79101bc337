// Whether a table has room, and its counts with one row more.
ghost use Rattle.std.specs.Prelude.{◌≡◌, ◌≤◌};
ghost use Rattle.state.specs.Counts.{full_by, Room};
ghost use Rattle.state.specs.Edits.{raised};

use ideal::Used;

// Whether all rows are used, or size bytes more are too many.
#[tactic(auto, unfolding(crate::specs::Counts::full_by))]
pub fn is_full(used: Used, size: usize) -> bool
    requires { size ≤ 256 }
    ensures { result ≡ full_by used size }
{
    used.rows == 64 || used.bytes as usize + size > 4096
}

// One row of so many bytes more.
pub fn raised(used: Used, size: u16) -> Used
    requires { Room used size }
    ensures { result ≡ raised used size }
{
    Used {
        rows: used.rows + 1,
        bytes: used.bytes + size,
    }
}
