// The places of a grid, and how many there are at most.
ghost use Rattle.std.specs.Prelude.{◌≡◌, ◌+◌, ◌≤◌};
ghost use Rattle.split_core.specs.Places.{place};
ghost use Rattle.split_core.specs.declared.places.TheConstants.{MAX_COMERS};

/// The most comers of a grid.
pub const MAX_COMERS: usize = 64;

/// The places of a grid of that many comers, n(n + 1)/2 for n comers, and so the most doors of a
/// scan.
pub const MAX_PLACES: usize = 2_080;

/// The number of the place in this row and column.
pub fn place_number(row: u16, column: u16) -> u16
    requires { row + column ≤ MAX_COMERS }
    ensures { result ≡ place row column }
{
    (row + column) * (row + column + 1) / 2 + row
}
