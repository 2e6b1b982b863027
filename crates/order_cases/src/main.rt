// 255 nested rows, each open and ongoing, through both orders: no model is deeper.
#![tactic(auto)]

ghost use Rattle.std.specs.Prelude.{◌≡◌, ◌*◌, ◌+◌};
ghost use Rattle.tree.specs.WellFormed.{WellFormed, Opens};
ghost use Rattle.order_cases.specs.Chain.{chain_node, chain_nodes};

use model::{Model, Node, Step};
use std::{array, io};

// Node k, the only child of node k - 1.
fn link(k: u64) -> Node
    ensures { result ≡ chain_node k }
{
    Node {
        parent: k.saturating_sub(1),
        entry: k,
        direct: 1,
        open: true,
        ongoing: true,
        ..Node::default()
    }
}

// The chain; only the nodes are filled in, since the orders read nothing else.
fn chain() -> Model
    ensures { result.nodes ≡ chain_nodes }
{
    Model {
        nodes: array::from_fn(|k| link(k as u64)),
        ..Model::default()
    }
}

// Its number in the printed order: 2k for the text of node k, 2k + 1 for its growth.
fn number(step: &Step) -> u64 {
    match step {
        Step::Text(k) => k.wrapping_mul(2),
        Step::Grow(k) => k.wrapping_mul(2).wrapping_add(1),
    }
}

fn close_outermost(rt: &impl Print, m: Model) -> io::Result<()>
    requires { WellFormed m.nodes × Opens m.nodes 1 }
{
    let order = orders::closing_order(m, 1);
    let nodes = order.as_slice();
    let at = |place: usize| -> u64 { nodes.get(place).copied().unwrap_or(0) };
    println!(rt;
        "closing node 1: steps {}, first {}, second {}, last {}",
        nodes.len(),
        at(0),
        at(1),
        at(254)
    )
}

fn update(rt: &impl Print, m: Model) -> io::Result<()>
    requires { WellFormed m.nodes }
{
    let visits = orders::visits(m);
    let steps = visits.as_slice();
    let at = |place: usize| -> u64 { steps.get(place).map_or(0, number) };
    println!(rt;
        "updating: steps {}, first {}, innermost {} and {}, last {}",
        steps.len(),
        at(0),
        at(255),
        at(256),
        at(511)
    )
}

fn main(rt: HostRuntime) -> io::Result<()> {
    let m = chain();
    close_outermost(&rt, m)?;
    update(&rt, m)
}
