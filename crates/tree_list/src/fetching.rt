// Fetch: what a row shows. An ongoing row is followed from then on.
//
// A node's number is plain, as in `model::Node`, and asked to be below 256 where it is read.
ghost use Rattle.std.specs.Prelude.{◌≡◌, ℕ, true, ◌<◌, Some, None};
ghost use Rattle.model.specs.Places.{unless_zero};
ghost use Rattle.model.specs.Answers.{fetch_answer};
ghost use Rattle.model.specs.Fetch.{fresh, node_or_fresh, shown, fetch_node, answer_fetch};
ghost use Rattle.tree_list.specs.Following.{Followable};

use crate::checks::{check_model, check_table, refused};
use crate::rows::row_at;
use model::{ChildIndex, Fetched, FetchedRow, Model, Node, Refusal, Refused, RowNumber};

// The node that a row would get, as the table has it.
fn fresh(table: &[u64], m: Model, parent: u64, index: ChildIndex) -> Node
    requires { parent < 256 }
    ensures { result ≡ fresh table.now m.nodes parent index.0 }
{
    let item = m.nodes[parent as usize].entry;
    let leaf = Node {
        parent,
        index: index.0,
        ..Node::default()
    };
    let Some(entry) = table::child_entry(table, item, index) else {
        return leaf;
    };
    let words = table::child_words(table, item, index);
    let count = words[2];
    Node {
        entry,
        direct: count,
        total: count,
        version: words[4],
        ongoing: words[3] == 0,
        ..leaf
    }
}

// The node of a row, which has a number, or would get one. Here and below `node ≡ unless_zero k` says which k the
// definitions have for the option: they take the number as it is, 0 for none.
pub fn node_or_fresh(
    table: &[u64],
    m: Model,
    parent: u64,
    index: ChildIndex,
    node: Option<u64>,
) -> Node
    requires parent_bound { parent < 256 }
    requires node_bound { (k : ℕ) → node ≡ Some k → k < 256 }
    ensures { (k : ℕ) → node ≡ unless_zero k → result ≡ node_or_fresh table.now m.nodes (parent, index.0) k }
{
    match node {
        Some(k) => m.nodes[k as usize],
        None => fresh(table, m, parent, index),
    }
}

// What is shown of a row with node n, which may have a number.
fn shown(m: Model, n: Node, node: Option<u64>) -> FetchedRow
    requires { n.parent < 256 }
    ensures { (k : ℕ) → node ≡ unless_zero k → result ≡ shown m.nodes n k }
{
    FetchedRow {
        parent_entry: m.nodes[n.parent as usize].entry,
        index: ChildIndex(n.index),
        entry: n.entry,
        count: n.direct,
        version: n.version,
        open: n.open,
        ongoing: n.ongoing,
        node,
    }
}

// An ongoing row without a node gets one.
fn follow(m: Model, n: Node) -> Result<Fetched, Refused>
    requires parent_bound { n.parent < 256 }
    requires ongoing_value { n.ongoing ≡ true }
    requires followable { Followable m n }
    ensures { fetch_answer result ≡ fetch_node m n 0 }
{
    let Some(number) = nodes::free_place(m) else {
        return Err(refused(Refusal::NodesFull, m));
    };
    let mut q = m;
    q.nodes[number as usize] = n;
    Ok(Fetched {
        model: q,
        row: shown(m, n, Some(number)),
    })
}

fn fetch_node(m: Model, n: Node, node: Option<u64>) -> Result<Fetched, Refused>
    requires parent_bound { n.parent < 256 }
    requires followable { node ≡ None → n.ongoing ≡ true → Followable m n }
    ensures { (k : ℕ) → node ≡ unless_zero k → fetch_answer result ≡ fetch_node m n k }
{
    if node.is_some() || !n.ongoing {
        return Ok(Fetched {
            model: m,
            row: shown(m, n, node),
        });
    }
    follow(m, n)
}

pub fn fetch(table: &[u64], m: Model, row: RowNumber) -> Result<Fetched, Refused>
    ensures { fetch_answer result ≡ answer_fetch table.now m row.0 }
{
    let checked = check_model(m)?;
    check_table(table, m)?;
    let Some(place) = regions::find_region(m, row) else {
        return Err(refused(Refusal::PastRows, m));
    };
    let (parent, index) = row_at(checked, place, row);
    let node = nodes::child_of(m, parent, index);
    fetch_node(m, node_or_fresh(table, m, parent, index, node), node)
}
