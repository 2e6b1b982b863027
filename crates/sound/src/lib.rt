// The soundness test: document 01's definition of a sound model, decided for any model whatever.
//
// The places take a pass over the nodes, the totals two, the regions one walk along the rows, and twins go over pairs
// of nodes. No number is added before it is known to fit. No chain of parents is followed to see where it ends: a total
// is below its parent's, so right totals let no chain go round.
#![tactic(auto)]

ghost use Rattle.std.specs.Prelude.{◌≡◌, true, ◌<◌, ◌≤◌, drop};
ghost use Rattle.model.specs.Nodes.{node_at};
ghost use Rattle.model.specs.Rows.{row_total};
ghost use Rattle.model.specs.Regions.{no_region};
ghost use Rattle.model.specs.Sound.{blank, capture_ok, nodes_ok, same_region, sound};
ghost use Rattle.sound.specs.Tests.{seated, place_ok, places_ok, is_twin, has_twins, open_total, total_is, Summed, totals_ok, is_next, begins, ends_at, regions_ok};

use model::{Model, Node, ROW_LIMIT, Region};
use nodes::in_use;

// A place that is not in use: nothing but its flags is set.
fn is_blank(n: Node) -> bool
    ensures { result ≡ blank n }
{
    n == Node {
        open: n.open,
        ongoing: n.ongoing,
        ..Node::default()
    }
}

#[tactic(auto, unfolding(model::specs::Sound::capture_ok))]
fn capture_ok(n: Node) -> bool
    ensures { result ≡ capture_ok n }
{
    n.open && n.entry == 0 && n.parent == 0 && n.index == 0 && n.version == 0
}

// A node in use, with its parent.
fn is_seated(n: Node, parent: Node) -> bool
    ensures { result ≡ seated n parent }
{
    0 < n.entry && parent.open && n.index < parent.direct && (!n.open || 0 < n.direct)
}

// Node k with its parent, whatever the other nodes are.
#[tactic(auto, using(crate::proofs::Places::places))]
fn place_ok(k: usize, n: Node, parent: Node) -> bool
    ensures { result ≡ place_ok k n parent }
{
    if k == 0 {
        capture_ok(n)
    } else if in_use(n) {
        is_seated(n, parent)
    } else {
        is_blank(n)
    }
}

fn places_ok(m: Model) -> bool
    ensures { result ≡ places_ok m.nodes }
{
    m.nodes.iter().enumerate().all(|(k, n)| {
        let parent = m.nodes.get(n.parent as usize);
        parent.is_some_and(|p| place_ok(k, *n, *p))
    })
}

// Two nodes in use with one parent and one index.
fn are_twins(a: Node, b: Node) -> bool
    ensures { result ≡ is_twin a b }
{
    in_use(a) && in_use(b) && a.parent == b.parent && a.index == b.index
}

// Whether two nodes besides the capture are twins. Nested loops that a label leaves are the form that
// docs/DECISIONS.md names for it.
fn has_twins(m: Model) -> bool
    ensures { result ≡ has_twins (drop 1 m.nodes) }
{
    let mut found = false;
    'pairs: for i in 1..256 {
        let a = m.nodes[i];
        if in_use(a) {
            for j in i + 1..256 {
                if are_twins(a, m.nodes[j]) {
                    found = true;
                    break 'pairs;
                }
            }
        }
    }
    found
}

// What a node adds to its parent's total.
fn open_total(n: Node) -> u64
    ensures { result ≡ open_total n }
{
    if n.open { n.total } else { 0 }
}

// For each node the totals of its open children, added up, unless one of these sums does not fit.
fn child_sums(m: Model) -> Option<[u64; 256]>
    requires { places_ok m.nodes ≡ true }
    ensures { Summed m.nodes result }
{
    let mut sums = [0u64; 256];
    for n in &m.nodes[1..] {
        let sum = &mut sums[n.parent as usize];
        *sum = sum.checked_add(open_total(*n))?;
    }
    Some(sums)
}

// The node's total, if it is in use, is its count and the sum. A sum that does not fit is no total.
fn total_is(n: Node, sum: u64) -> bool
    ensures { result ≡ total_is n sum }
{
    !in_use(n) || n.direct.checked_add(sum) == Some(n.total)
}

fn totals_ok(m: Model) -> bool
    requires { places_ok m.nodes ≡ true }
    ensures { result ≡ totals_ok m.nodes }
{
    let Some(sums) = child_sums(m) else {
        return false;
    };
    m.nodes.iter().zip(&sums).all(|(n, sum)| total_is(*n, *sum))
}

// A region that begins with row s, the child of node p at index i, and has from 1 to `most` rows.
fn begins_at(g: Region, s: u64, p: u64, i: u64, most: u64) -> bool
    ensures { result ≡ begins g s p i most }
{
    g.start == s && g.node == p && g.offset == i && 0 < g.length && g.length <= most
}

// Node n, of number c, is the open child of node p at index i.
fn is_next(n: Node, c: u64, p: u64, i: u64) -> bool
    ensures { result ≡ is_next n c p i }
{
    0 < c && n.open && n.parent == p && n.index == i
}

// A place for a region that is not in use.
fn is_no_region(g: Region) -> bool
    ensures { result ≡ same_region g no_region }
{
    g == Region::default()
}

// The regions end at place j, after s rows: that is all rows, and the places from there on are not in use.
fn ends_at(m: Model, j: usize, s: u64) -> bool
    requires { j ≤ 512 }
    ensures { result ≡ ends_at m j s }
{
    s == m.nodes[0].total && m.regions[j..].iter().all(|g| is_no_region(*g))
}

// The regions are those of the rows. Row s is the child of node p at index i, or p's rows end there. A region
// runs to p's last row, or to an open child's: the next region's node says which. An open child that a region
// runs over leaves the rows short of the row total.
fn regions_ok(m: Model) -> bool
    requires { (nodes_ok m.nodes 0 m.nodes ≡ true) × ((node_at m.nodes 0).total ≡ row_total m.nodes) × (m.region_count < 512) }
    ensures { result ≡ regions_ok m.nodes m.regions m.region_count }
{
    let count = m.region_count as usize;
    let mut s: u64 = 0;
    let mut p: u64 = 0;
    let mut i: u64 = 0;
    for j in 0..count {
        // After a node's last row comes the next row of its parent, which may be past its last one too.
        while m.nodes[p as usize].direct <= i {
            if p == 0 {
                return false;
            }
            let n = m.nodes[p as usize];
            i = n.index + 1;
            p = n.parent;
        }
        let n = m.nodes[p as usize];
        let g = m.regions[j];
        if !begins_at(g, s, p, i, n.direct - i) {
            return false;
        }
        let end = i + g.length;
        s += g.length;
        let c = m.regions[j + 1].node;
        if c < 256 && is_next(m.nodes[c as usize], c, p, end - 1) {
            p = c;
            i = 0;
        } else if end == n.direct {
            i = end;
        } else {
            return false;
        }
    }
    ends_at(m, count, s)
}

// Whether a model is sound.
pub fn is_sound(m: Model) -> bool
    ensures { result ≡ sound m }
{
    !has_twins(m)
        && places_ok(m)
        && totals_ok(m)
        && m.region_count < 512
        && regions_ok(m)
        && m.published == m.nodes[0].total
        && m.published <= ROW_LIMIT
}
