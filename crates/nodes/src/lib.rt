// The leaves over nodes: which are in use, which is whose child, and which number is free.
//
// Node 0 is the capture: always in use, and nobody's child. So each search is over nodes 1, 2, ..,
// and what it finds at place k of these is node k + 1.
#![tactic(auto)]

ghost use Rattle.std.specs.Prelude.{◌≡◌, ◌&&◌};
ghost use Rattle.std.specs.Fn.{FnReturnsAt};
ghost use Rattle.model.specs.Places.{unless_zero};
ghost use Rattle.model.specs.Nodes.{no_node, is_open, used, stands_at, seek, child, open_child, free};

use model::{ChildIndex, Model, Node};

// What a place holds that is not in use.
pub fn no_node() -> Node
    ensures { result ≡ no_node }
{
    Node::default()
}

// A node is in use while it is open or ongoing.
pub fn in_use(n: Node) -> bool
    ensures { result ≡ used n }
{
    n.open || n.ongoing
}

// The node records parent p and index i.
fn stands_at(n: Node, p: u64, i: u64) -> bool
    ensures { result ≡ stands_at p i n }
{
    n.parent == p && n.index == i
}

fn is_child(n: Node, p: u64, i: u64) -> bool
    ensures { result ≡ (used n && stands_at p i n) }
{
    in_use(n) && stands_at(n, p, i)
}

fn is_open_child(n: Node, p: u64, i: u64) -> bool
    ensures { result ≡ (is_open n && stands_at p i n) }
{
    n.open && stands_at(n, p, i)
}

// The number of the first node, from node 1 on, that passes the test.
fn first_node<F: Fn(&Node) -> bool>(m: Model, test: F) -> Option<u64>
    requires { F.IsAlwaysCallable test }
    ensures { (q : _) → ((n : _) (b : _) → FnReturnsAt F.Fn test n b → b ≡ q n) → result ≡ unless_zero (seek q m.nodes) }
{
    m.nodes[1..].iter().position(test).map(|k| k as u64 + 1)
}

// The number of the node in use that is child i of node p.
pub fn child_of(m: Model, p: u64, i: ChildIndex) -> Option<u64>
    ensures { result ≡ unless_zero (child m.nodes p i.0) }
{
    first_node(m, |n| is_child(*n, p, i.0))
}

// The number of the open node that is child i of node p.
pub fn open_child_of(m: Model, p: u64, i: ChildIndex) -> Option<u64>
    ensures { result ≡ unless_zero (open_child m.nodes p i.0) }
{
    first_node(m, |n| is_open_child(*n, p, i.0))
}

// The lowest number that is free.
pub fn free_place(m: Model) -> Option<u64>
    ensures { result ≡ unless_zero (free m.nodes) }
{
    first_node(m, |n| !in_use(*n))
}
