// One open node, none of whose children is open, is closed: its rows go, and its child nodes with them.
ghost use Rattle.std.specs.Prelude.{◌≡◌, false, cond, eqb};
ghost use Rattle.model.specs.Nodes.{no_node, with_open, or_none};
ghost use Rattle.model.specs.Rows.{rows};
ghost use Rattle.model.specs.Regions.{runs};
ghost use Rattle.model.specs.Settle.{settle};
ghost use Rattle.model.specs.Close.{free_below};
ghost use Rattle.runs.specs.Laid.{laid};
ghost use Rattle.steps.specs.Changes.{closed_at};
ghost use Rattle.steps.specs.Settled.{Sound, with_nodes};
ghost use Rattle.edits.specs.Closable.{Closable};

use model::{Model, Node, RowNumber};
use nodes::no_node;

// The node closed: it stays only if it is ongoing.
fn shut_node(n: Node) -> Node
    ensures { result ≡ or_none (with_open false n) }
{
    if n.ongoing {
        Node { open: false, ..n }
    } else {
        no_node()
    }
}

// What is left of a node when the children of `parent` are freed, also the followed ones.
fn unless_child(n: Node, parent: u64) -> Node
    ensures { result ≡ cond (eqb n.parent parent) no_node n }
{
    if n.parent == parent { no_node() } else { n }
}

// The child nodes of a node are freed.
fn free_children(m: Model, node: u64) -> Model
    ensures { result ≡ with_nodes m (free_below node m.nodes) }
{
    let mut q = m;
    for n in &mut q.nodes {
        *n = unless_child(*n, node);
    }
    q
}

// The rows of the node's children go from the region map: they are the region that starts below its own row.
fn remove_children(m: Model, node: u64) -> Model
    requires sound { Sound m }
    requires closable { Closable m.nodes node }
    ensures { result ≡ laid m (runs 0 (rows (closed_at m.nodes node))) }
{
    let row = totals::row_of(m, node);
    let first = RowNumber(row.0 + 1);
    let Some(place) = regions::find_region(m, first) else {
        return m;
    };
    regions::collapse(m, place)
}

// Closes such a node in place: the totals above it and the published count lose its rows too.
pub fn close_node(m: Model, node: u64) -> Model
    requires sound { Sound m }
    requires closable { Closable m.nodes node }
    ensures { result ≡ settle (closed_at m.nodes node) }
{
    let n = m.nodes[node as usize];
    let rest = remove_children(m, node);
    let moved = totals::update_total(rest, node, false, n.direct);
    let mut q = free_children(moved, node);
    q.nodes[node as usize] = shut_node(n);
    q.published -= n.direct;
    q
}
