// Totals of open nodes: the rows between two children, the row of a node, and totals kept up the chain.
//
// The public functions take any `Model`, with clauses for what holds of it: docs/PROMISES.md names them, and a type with
// these invariants would ask more of a caller.
#![tactic(auto)]

ghost use Rattle.std.specs.Prelude.{◌<◌, ◌≤◌, ◌^◌, ◌≡◌};
ghost use Rattle.model.specs.Places.{depth};
ghost use Rattle.model.specs.Rows.{row_of};
ghost use Rattle.tree.specs.WellFormed.{WellFormed, Used};
ghost use Rattle.steps.specs.Settled.{Sound, with_nodes};
ghost use Rattle.totals.specs.Totals.{opens_between, rows_between, moved, Movable, moved_above, AllMovable};

use model::{ChildIndex, Model, Node, RowNumber};

// Whether a node is open and a child of `parent` from index `start` to before `end`.
fn opens_between(n: Node, parent: u64, start: u64, end: u64) -> bool
    ensures { result ≡ opens_between parent start end n }
{
    n.open && n.parent == parent && start <= n.index && n.index < end
}

// The number of rows between two children of a node.
pub fn rows_between(m: Model, parent: u64, start: ChildIndex, end: ChildIndex) -> u64
    requires start_le_end { start.0 ≤ end.0 }
    requires end_bound { rows_between m.nodes parent start.0 end.0 < 2 ^ 64 }
    ensures { result ≡ rows_between m.nodes parent start.0 end.0 }
{
    let below: u64 = m.nodes[1..]
        .iter()
        .filter(|n| opens_between(**n, parent, start.0, end.0))
        .map(|n| n.total)
        .sum();
    end.0 - start.0 + below
}

// A total with more rows, or with fewer.
fn moved_total(total: u64, expanded: bool, rows: u64) -> u64
    requires { Movable expanded rows total }
    ensures { result ≡ moved expanded rows total }
{
    if expanded { total + rows } else { total - rows }
}

// Traverses back up the tree from a node, with more or fewer rows in the total of each node above it. `expanded`
// and `rows` stay two, as in the Rust and in `moved_above`: an enum of both would be taken apart at once.
pub fn update_total(m: Model, node: u64, expanded: bool, rows: u64) -> Model
    requires well_formed { WellFormed m.nodes }
    requires used { Used m.nodes node }
    requires all_movable { AllMovable expanded rows m.nodes node }
    ensures { result ≡ with_nodes m (moved_above expanded rows depth m.nodes node) }
{
    let mut q = m;
    let mut k = node;
    while 0 < k {
        let above = q.nodes[k as usize].parent;
        let parent = &mut q.nodes[above as usize];
        parent.total = moved_total(parent.total, expanded, rows);
        k = above;
    }
    q
}

// The row of a node, by climbing: its index and the rows below its siblings before it, and one and
// the same for each node above it.
pub fn row_of(m: Model, node: u64) -> RowNumber
    requires sound { Sound m }
    requires node_nonzero { 0 < node }
    requires used { Used m.nodes node }
    ensures { result ≡ record { 0 = row_of m.nodes node } }
{
    let mut rows: u64 = 0;
    let mut k = node;
    while 0 < k {
        let n = m.nodes[k as usize];
        let before = rows_between(m, n.parent, ChildIndex(0), ChildIndex(n.index));
        rows += before + 1;
        k = n.parent;
    }
    RowNumber(rows - 1)
}
