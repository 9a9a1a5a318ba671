// A law of the looks that the grid's table records. A call of it runs nothing: it hands the law's facts
// to the proof of its caller.
ghost use Rattle.std.specs.Prelude.{ℕ, List};
ghost use Rattle.split_core.specs.Grid.{Different};
ghost use Rattle.split_grid.specs.DoorLooks.{LooksFind};

use split_core::laws::{law_all_runs, law_places, law_trail_reads};

/// For every list of different ids and every run with looks: a trail scan that is over has found each
/// place whose door was closed at the moment of its first look.
pub fn law_looks()
    ensures { (ids : List ℕ) → Different ids → LooksFind ids }
{
    law_all_runs();
    law_places();
    law_trail_reads();
}
