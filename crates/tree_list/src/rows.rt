// A row of a sound model: the region that holds it says which node's child it is.
ghost use Rattle.std.specs.Prelude.{Some, ◌≡◌};
ghost use Rattle.model.specs.Rows.{row_at};
ghost use Rattle.runs.specs.Search.{region_at};
ghost use Rattle.runs.specs.Laid.{live};

use crate::checks::SoundModel;
use model::{ChildIndex, RowNumber};

// The parent node of a row that the region at a place holds, and the row's index below it: two values, since every
// look-up takes them as two.
pub fn row_at(m: SoundModel, place: usize, row: RowNumber) -> (u64, ChildIndex)
    requires { region_at (live m.model) row.0 ≡ Some place }
    ensures parent { result.0 ≡ (row_at m.model.nodes row.0).0 }
    ensures index { result.1 ≡ record { 0 = (row_at m.model.nodes row.0).1 } }
{
    let region = m.model.regions[place];
    (region.node, regions::child_at(region, row))
}
