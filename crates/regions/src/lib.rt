// The region map: which rows are children of which node. Regions stand in ascending order of their starts.
//
// The public functions over a `Model`, which README.md names, take any and ask `Laid` of it, and `Tiled` where they need it: a
// type with these invariants would ask more of a caller. Inside, `RegionMap` has the first.
#![tactic(auto)]

ghost use Rattle.std.specs.Prelude.{◌≡◌, ◌+◌, ◌<◌, ◌≤◌, ◌^◌, length, take};
ghost use Rattle.model.specs.Places.{region_places};
ghost use Rattle.runs.specs.Regions.{at, total, Tiled};
ghost use Rattle.runs.specs.Search.{region_at, child_at, Holds};
ghost use Rattle.runs.specs.Changes.{joined, expanded, collapsed, grown};
ghost use Rattle.runs.specs.Laid.{live, laid, Laid};

mod map;

use map::RegionMap;
use model::{ChildIndex, Model, Region, RowNumber};

// The place of the region that holds a row: the last one that starts at or before it, if the row is not past its end.
pub fn find_region(m: Model, row: RowNumber) -> Option<usize>
    requires laid { Laid m }
    requires tiled { Tiled 0 (live m) }
    ensures { result ≡ region_at (live m) row.0 }
{
    let count = m.region_count as usize;
    let after = m.regions[..count].partition_point(|g| g.start <= row.0);
    let place = after.checked_sub(1)?;
    let g = m.regions[place];
    if row.0 - g.start < g.length {
        return Some(place);
    }
    None
}

// The child that a row is, below the node of the region that holds it: here a row number becomes a child index.
pub fn child_at(g: Region, row: RowNumber) -> ChildIndex
    requires { (g.start ≤ row.0) × (row.0 < g.start + g.length) × (g.offset + g.length < 2 ^ 64) }
    ensures { result ≡ record { 0 = child_at g row.0 } }
{
    ChildIndex(g.offset + (row.0 - g.start))
}

// Neighbours of one node become one region.
pub fn merge_regions(m: Model) -> Model
    requires laid { Laid m }
    requires m_bound { total (live m) < 2 ^ 64 }
    ensures { result ≡ laid m (joined (live m)) }
{
    let mut map = RegionMap::of(m);
    map.merge_regions();
    map.in_model(m)
}

// The children of a node are put in below a row, which the region at a place holds.
pub fn expand(m: Model, place: usize, row: RowNumber, node: u64, count: u64) -> Model
    requires laid { Laid m }
    requires tiled { Tiled 0 (live m) }
    requires holds { Holds (live m) row.0 place }
    requires m_len_bound { (length (live m) + 2 ≤ region_places) × (total (live m) + count < 2 ^ 64) × ((at (live m) place).offset + (at (live m) place).length < 2 ^ 64) }
    ensures { result ≡ laid m (expanded (live m) place row.0 node count) }
{
    let last = child_at(m.regions[place], row);
    let mut map = RegionMap::of(m);
    map.move_starts(place + 1, count, 0);
    let new = Region {
        start: row.0 + 1,
        node,
        offset: 0,
        length: count,
    };
    map.split_parent(place, last, new);
    map.in_model(m)
}

// The region at a place is taken out, what comes after it moves up, and neighbours of one node join.
pub fn collapse(m: Model, place: usize) -> Model
    requires laid { Laid m }
    requires tiled { Tiled 0 (live m) }
    requires place_in_bounds { (place < length (live m)) × (total (live m) < 2 ^ 64) }
    ensures { result ≡ laid m (joined (collapsed (live m) place)) }
{
    let rows = m.regions[place].length;
    let mut map = RegionMap::of(m);
    map.move_starts(place + 1, 0, rows);
    map.remove_region(place);
    map.merge_regions();
    map.in_model(m)
}

// Rows of a node, from an index on, are put in at a row where the region at a place starts, or after the last region. Neighbours join.
pub fn grow(
    m: Model,
    place: usize,
    row: RowNumber,
    node: u64,
    from: ChildIndex,
    count: u64,
) -> Model
    requires laid { Laid m }
    requires tiled { Tiled 0 (live m) }
    requires place_in_bounds { (place ≤ length (live m)) × (total (take place (live m)) ≡ row.0) }
    requires m_len_bound { (length (live m) < region_places) × (total (live m) + count < 2 ^ 64) }
    ensures { result ≡ laid m (joined (grown (live m) place row.0 node from.0 count)) }
{
    let mut map = RegionMap::of(m);
    map.move_starts(place, count, 0);
    let new = Region {
        start: row.0,
        node,
        offset: from.0,
        length: count,
    };
    map.insert_region(place, new);
    map.merge_regions();
    map.in_model(m)
}
