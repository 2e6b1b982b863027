// The steps of an update's visit of a node.
ghost use Rattle.std.specs.Prelude.{◌<◌, ◌≡◌, false, set};
ghost use Rattle.model.specs.Nodes.{node_at, is_open, with_version, with_direct, with_ongoing, with_total};
ghost use Rattle.model.specs.Settle.{settle};
ghost use Rattle.tree.specs.WellFormed.{Used, Opens};
ghost use Rattle.steps.specs.Settled.{Sound};
ghost use Rattle.edits.specs.Visiting.{visited, Visitable};

use crate::grown::grow_node;
use model::{Model, Node};
use nodes::no_node;

// A row's node records a version.
pub fn set_version(m: Model, k: u64, version: u64) -> Model
    requires sound { Sound m }
    requires k_nonzero { 0 < k }
    requires used { Used m.nodes k }
    ensures { result ≡ settle (set m.nodes k (with_version version (node_at m.nodes k))) }
{
    let mut q = m;
    q.nodes[k as usize].version = version;
    q
}

// An open node is ongoing no longer.
fn complete(m: Model, k: u64) -> Model
    requires sound { Sound m }
    requires opens { Opens m.nodes k }
    ensures { result ≡ settle (set m.nodes k (with_ongoing false (node_at m.nodes k))) }
{
    let mut q = m;
    q.nodes[k as usize].ongoing = false;
    q
}

// An open node has `count` children from now on, as many as it had or more.
fn grow_open(m: Model, k: u64, count: u64) -> Model
    requires visitable { Visitable m k count }
    requires opens { Opens m.nodes k }
    ensures { result ≡ settle (set m.nodes k (with_direct count (node_at m.nodes k))) }
{
    if count == m.nodes[k as usize].direct {
        m
    } else {
        grow_node(m, k, count)
    }
}

// An open node records its count, its new rows with it, and is ongoing no longer if its item is complete.
fn step_open(m: Model, k: u64, count: u64, ongoing: bool) -> Model
    requires visitable { Visitable m k count }
    requires opens { Opens m.nodes k }
    ensures { result ≡ settle (set m.nodes k (visited count ongoing (node_at m.nodes k))) }
{
    let q = grow_open(m, k, count);
    if ongoing { q } else { complete(q, k) }
}

// A closed node with another count, which is its total too.
fn counted(n: Node, count: u64) -> Node
    ensures { result ≡ with_total count (with_direct count n) }
{
    Node {
        direct: count,
        total: count,
        ..n
    }
}

// A closed node records its count, and is freed if it is complete.
fn step_closed(m: Model, k: u64, count: u64, ongoing: bool) -> Model
    requires visitable { Visitable m k count }
    requires k_value { is_open (node_at m.nodes k) ≡ false }
    ensures { result ≡ settle (set m.nodes k (visited count ongoing (node_at m.nodes k))) }
{
    let n = m.nodes[k as usize];
    let mut q = m;
    q.nodes[k as usize] = if ongoing {
        counted(n, count)
    } else {
        no_node()
    };
    q
}

// The growth step of a visit, with the count and the state that the table gives the node's item.
pub fn grow_step(m: Model, k: u64, count: u64, ongoing: bool) -> Model
    requires { Visitable m k count }
    ensures { result ≡ settle (set m.nodes k (visited count ongoing (node_at m.nodes k))) }
{
    if m.nodes[k as usize].open {
        step_open(m, k, count, ongoing)
    } else {
        step_closed(m, k, count, ongoing)
    }
}
