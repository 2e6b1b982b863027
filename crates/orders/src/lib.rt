// The order of the steps that closing and updating take.
//
// The recursions, with an allowance that falls at each level, read the lent nodes and push onto a lent
// order, so that a level takes little of the stack; the model by value stays outside them.
//
// Both public functions take any `Model`, with clauses for what holds of it: docs/PROMISES.md names them. A node's number
// is plain, as in `model::Node`, and asked to be below 256 where it is read.
#![tactic(auto)]

ghost use Rattle.std.specs.Prelude.{◌≡◌, ◌+◌, ◌<◌, ◌≤◌, ◌++◌, length};
ghost use Rattle.std.specs.Fn.{FnReturnsAt};
ghost use Rattle.model.specs.Places.{depth};
ghost use Rattle.model.specs.Close.{closing_order};
ghost use Rattle.model.specs.Update.{visit, visits as all_visits};
ghost use Rattle.tree.specs.WellFormed.{WellFormed, Opens};
ghost use Rattle.orders.specs.Order.{items, Holds};
ghost use Rattle.orders.specs.Orders.{followed_visits, FirstIs};

mod order;

use model::{Model, Node, Step};
pub use order::Order;

// The child of `node` that passes the test and has the least index, from `low` on and below `limit`.
fn next_child<F: Fn(&Node) -> bool>(
    nodes: &[Node; 256],
    test: F,
    node: usize,
    low: u64,
    limit: u64,
) -> Option<usize>
    requires { F.IsAlwaysCallable test }
    ensures { (q : _) → ((n : _) (b : _) → FnReturnsAt F.Fn test n b → b ≡ q n)
        → FirstIs q nodes.now node low limit result }
{
    let mut best = None;
    let mut bound = limit;
    for k in 1..256 {
        let n = &nodes[k];
        if test(n) && n.parent == node as u64 && low <= n.index && n.index < bound {
            bound = n.index;
            best = Some(k);
        }
    }
    best
}

// Closing: pushes the nodes below `node`, inner ones first, and then `node`.
fn close_order(nodes: &[Node; 256], node: usize, out: &mut Order<u64>, allowance: usize)
    requires { (node < 256) × (out.old.len ≤ 512) × (length (items out.old) + length (closing_order nodes.now allowance node) ≤ 512) }
    ensures { Holds out.new (items out.old ++ closing_order nodes.now allowance node) }
{
    if allowance == 0 {
        return;
    }
    let limit = nodes[node].direct;
    let mut low = 0;
    while let Some(child) = next_child(nodes, |n| n.open, node, low, limit) {
        close_order(nodes, child, out, allowance - 1);
        low = nodes[child].index + 1;
    }
    out.push(node as u64);
}

// Updating: pushes the visit of `node`, which is its text step, the visits of its followed children
// and its growth step.
#[cycle(visit_walk)]
fn visit(nodes: &[Node; 256], node: usize, out: &mut Order<Step>, allowance: usize)
    requires { (node < 256) × (out.old.len ≤ 512) × (length (items out.old) + length (visit nodes.now allowance node) ≤ 512) }
    ensures { Holds out.new (items out.old ++ visit nodes.now allowance node) }
{
    if allowance == 0 {
        return;
    }
    out.push(Step::Text(node as u64));
    walk(nodes, node, out, allowance - 1);
    out.push(Step::Grow(node as u64));
}

// Pushes the visits of the followed children of `node`, in ascending index: a closed node has none.
#[cycle(visit_walk)]
fn walk(nodes: &[Node; 256], node: usize, out: &mut Order<Step>, allowance: usize)
    requires { (node < 256) × (out.old.len ≤ 512) × (length (items out.old) + length (followed_visits nodes.now allowance node) ≤ 512) }
    ensures { Holds out.new (items out.old ++ followed_visits nodes.now allowance node) }
{
    if !nodes[node].open {
        return;
    }
    let limit = nodes[node].direct;
    let mut low = 0;
    while let Some(followed) = next_child(nodes, |n| n.ongoing, node, low, limit) {
        visit(nodes, followed, out, allowance);
        low = nodes[followed].index + 1;
    }
}

// The nodes that closing the open node `k` closes, in the order in which it does.
pub fn closing_order(m: Model, k: usize) -> Order<u64>
    requires { WellFormed m.nodes × (0 < k) × Opens m.nodes k }
    ensures { Holds result (closing_order m.nodes depth k) }
{
    let mut order = Order::new();
    // rows are nested at most 255 deep
    close_order(&m.nodes, k, &mut order, 255);
    order
}

// The steps of an update, as the nodes stand at its start.
pub fn visits(m: Model) -> Order<Step>
    requires { WellFormed m.nodes }
    ensures { Holds result (all_visits m.nodes) }
{
    let mut steps = Order::new();
    // the capture, and rows nested at most 255 deep
    visit(&m.nodes, 0, &mut steps, 256);
    steps
}
