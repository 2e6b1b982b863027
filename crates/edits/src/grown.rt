// An open node grows: its new rows come after its last one.
ghost use Rattle.std.specs.Prelude.{◌+◌, ◌-◌, ◌^◌, ◌<◌, ◌≤◌, ◌≡◌, length, take, set};
ghost use Rattle.model.specs.Nodes.{node_at, with_direct};
ghost use Rattle.model.specs.Rows.{rows};
ghost use Rattle.model.specs.Regions.{runs};
ghost use Rattle.model.specs.Settle.{settle};
ghost use Rattle.model.specs.Update.{end_of};
ghost use Rattle.runs.specs.Regions.{total};
ghost use Rattle.runs.specs.Laid.{live, laid};
ghost use Rattle.tree.specs.WellFormed.{Opens};
ghost use Rattle.steps.specs.Settled.{Sound, with_nodes};
ghost use Rattle.edits.specs.Growing.{grown_node, raised, Growable, Raisable};

use model::{ChildIndex, Model, Node, RowNumber};

// The row after the last one below an open node.
pub fn end_of(m: Model, k: u64) -> RowNumber
    requires sound { Sound m }
    requires opens { Opens m.nodes k }
    ensures { result ≡ record { 0 = end_of m.nodes k } }
{
    if k == 0 {
        RowNumber(m.published)
    } else {
        let row = totals::row_of(m, k);
        RowNumber(row.0 + 1 + m.nodes[k as usize].total)
    }
}

// The place of the region that starts there, or the place after the last region.
fn place_after(m: Model, k: u64) -> usize
    requires sound { Sound m }
    requires opens { Opens m.nodes k }
    ensures { (result ≤ length (live m)) × (total (take result (live m)) ≡ end_of m.nodes k) }
{
    regions::find_region(m, end_of(m, k)).unwrap_or(m.region_count as usize)
}

// The region map with the new rows of an open node, which has `count` children from now on.
fn grow_regions(m: Model, k: u64, count: u64) -> Model
    requires { Growable m k count }
    ensures { result ≡ laid m (runs 0 (rows (set m.nodes k (with_direct count (node_at m.nodes k))))) }
{
    let place = place_after(m, k);
    let row = end_of(m, k);
    let from = m.nodes[k as usize].direct;
    regions::grow(m, place, row, k, ChildIndex(from), count - from)
}

// A node with more children, and as many more rows below it.
fn grown_node(n: Node, count: u64) -> Node
    requires { (n.direct ≤ count) × (n.total + (count - n.direct) < 2 ^ 64) }
    ensures { result ≡ grown_node count n }
{
    Node {
        direct: count,
        total: n.total + (count - n.direct),
        ..n
    }
}

// The counts: an open node's children, and the totals from it up.
fn raise_totals(m: Model, k: u64, count: u64) -> Model
    requires { Raisable m.nodes k count }
    ensures { result ≡ with_nodes m (raised m.nodes k count) }
{
    let n = m.nodes[k as usize];
    let mut q = m;
    q.nodes[k as usize] = grown_node(n, count);
    totals::update_total(q, k, true, count - n.direct)
}

// An open node has `count` children from now on, more than it had.
pub fn grow_node(m: Model, k: u64, count: u64) -> Model
    requires { Growable m k count }
    ensures { result ≡ settle (set m.nodes k (with_direct count (node_at m.nodes k))) }
{
    let added = count - m.nodes[k as usize].direct;
    let placed = grow_regions(m, k, count);
    let mut q = raise_totals(placed, k, count);
    q.published += added;
    q
}
