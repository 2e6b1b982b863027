// A row opened.
ghost use Rattle.std.specs.Prelude.{◌≡◌, true, set};
ghost use Rattle.model.specs.Nodes.{with_open};
ghost use Rattle.model.specs.Settle.{settle};
ghost use Rattle.edits.specs.Openable.{Openable};

use model::{Model, Node, RowNumber};

// The node with its rows shown.
fn opened(n: Node) -> Node
    ensures { result ≡ with_open true n }
{
    Node { open: true, ..n }
}

// Node n, of a row that the region at a place holds, is put open at a number, and its children become rows.
pub fn open_node(m: Model, place: usize, row: RowNumber, node: u64, n: Node) -> Model
    requires { Openable m place row.0 node n }
    ensures { result ≡ settle (set m.nodes node (with_open true n)) }
{
    let mut put = m;
    put.nodes[node as usize] = opened(n);
    let raised = totals::update_total(put, node, true, n.direct);
    let mut q = regions::expand(raised, place, row, node, n.direct);
    q.published += n.direct;
    q
}
