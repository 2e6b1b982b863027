// Sound models, and models with one fault each: the refusal that a count of each gives, a line for each.
#![tactic(auto)]

use model::{Model, Node, Region};
use std::io;

fn say(rt: &impl Print, name: &str, m: Model) -> io::Result<()> {
    let number = match tree_list::count(m) {
        Ok(_) => 0,
        Err(refusal) => u64::from(refusal),
    };
    println!(rt; "{name}: {number}")
}

fn open_node(parent: u64, index: u64, entry: u64, direct: u64, total: u64) -> Node {
    Node {
        parent,
        index,
        entry,
        direct,
        total,
        open: true,
        ..Node::default()
    }
}

fn followed_node(parent: u64, index: u64, entry: u64, direct: u64) -> Node {
    Node {
        parent,
        index,
        entry,
        direct,
        total: direct,
        version: 3,
        open: false,
        ongoing: true,
    }
}

fn region(start: u64, node: u64, offset: u64, length: u64) -> Region {
    Region {
        start,
        node,
        offset,
        length,
    }
}

fn no_rows() -> Model {
    let mut m = Model::default();
    m.nodes[0].open = true;
    m
}

// The capture with n rows, none of them open.
fn flat(n: u64) -> Model {
    let mut m = no_rows();
    m.nodes[0] = open_node(0, 0, 0, n, n);
    m.regions[0] = region(0, 0, 0, n);
    m.region_count = 1;
    m.published = n;
    m
}

// Three rows, the second open with two below it, of which the first is followed.
fn small() -> Model {
    let mut m = flat(3);
    m.nodes[0].total = 5;
    m.nodes[1] = open_node(0, 1, 7, 2, 2);
    m.nodes[2] = followed_node(1, 0, 8, u64::MAX);
    m.regions[0] = region(0, 0, 0, 2);
    m.regions[1] = region(2, 1, 0, 2);
    m.regions[2] = region(4, 0, 2, 1);
    m.region_count = 3;
    m.published = 5;
    m
}

// The last row open, and its last row: no region after them.
fn last_open() -> Model {
    let mut m = flat(2);
    m.nodes[0].total = 5;
    m.nodes[1] = open_node(0, 1, 7, 2, 3);
    m.nodes[2] = open_node(1, 1, 8, 1, 1);
    m.regions[0] = region(0, 0, 0, 2);
    m.regions[1] = region(2, 1, 0, 2);
    m.regions[2] = region(4, 2, 0, 1);
    m.region_count = 3;
    m.published = 5;
    m
}

// 255 open nodes, each below the one before it.
fn chain() -> Model {
    let mut m = flat(1);
    m.nodes[0].total = 256;
    for k in 1..256 {
        let n = k as u64;
        m.nodes[k] = open_node(n - 1, 0, n, 1, 256 - n);
        m.regions[k] = region(n, n, 0, 1);
    }
    m.region_count = 256;
    m.published = 256;
    m
}

// 255 open rows among 511, each with one row below: as many regions as there can be.
fn comb() -> Model {
    let mut m = flat(511);
    m.nodes[0].total = 766;
    m.regions[0] = region(0, 0, 0, 2);
    for k in 1..256 {
        let n = k as u64;
        m.nodes[k] = open_node(0, 2 * n - 1, n, 1, 1);
        m.regions[2 * k - 1] = region(3 * n - 1, n, 0, 1);
        m.regions[2 * k] = region(3 * n, 0, 2 * n, 2);
    }
    m.regions[510].length = 1;
    m.region_count = 511;
    m.published = 766;
    m
}

// Every number the same.
fn full(x: u64, open: bool) -> Model {
    let n = Node {
        version: x,
        open,
        ongoing: open,
        ..open_node(x, x, x, x, x)
    };
    Model {
        nodes: [n; 256],
        regions: [region(x, x, x, x); 512],
        region_count: x,
        published: x,
    }
}

fn sound_models(rt: &impl Print) -> io::Result<()> {
    say(rt, "no rows", no_rows())?;
    say(rt, "three rows", flat(3))?;
    say(rt, "as many rows as there can be", flat(4_294_967_295))?;
    say(rt, "an open row and a followed one", small())?;
    say(rt, "the last row open", last_open())?;
    say(rt, "a chain of 255 open nodes", chain())?;
    say(rt, "as many regions as there can be", comb())?;
    Ok(())
}

fn capture_faults(rt: &impl Print) -> io::Result<()> {
    let mut a = no_rows();
    a.nodes[0].open = false;
    a.nodes[0].ongoing = true;
    say(rt, "the capture not open", a)?;
    let mut b = small();
    b.nodes[0].entry = 1;
    say(rt, "the capture with an entry", b)?;
    let mut c = small();
    c.nodes[0].parent = 1;
    say(rt, "the capture with a parent", c)?;
    let mut d = small();
    d.nodes[0].index = 1;
    say(rt, "the capture with an index", d)?;
    let mut e = small();
    e.nodes[0].version = 1;
    say(rt, "the capture with a version", e)?;
    Ok(())
}

fn node_faults(rt: &impl Print) -> io::Result<()> {
    let mut a = small();
    a.nodes[1].entry = 0;
    say(rt, "entry 0", a)?;
    let mut b = small();
    b.nodes[3] = followed_node(2, 0, 9, 0);
    say(rt, "a closed parent", b)?;
    let mut c = small();
    c.nodes[2].parent = 9;
    say(rt, "a parent that is not in use", c)?;
    let mut d = small();
    d.nodes[2].parent = 256;
    say(rt, "a parent past the places", d)?;
    let mut e = small();
    e.nodes[2].index = 2;
    say(rt, "an index at the parent's count", e)?;
    let mut f = flat(3);
    f.nodes[1] = open_node(0, 1, 7, 0, 0);
    say(rt, "an open node without children", f)?;
    Ok(())
}

fn pair_faults(rt: &impl Print) -> io::Result<()> {
    let mut a = small();
    a.nodes[255] = followed_node(1, 0, 9, 4);
    say(rt, "a twin, both followed", a)?;
    let mut b = small();
    b.nodes[3] = followed_node(0, 1, 9, 4);
    say(rt, "a twin, one of them open", b)?;
    let mut c = small();
    c.nodes[0].total = 7;
    c.nodes[3] = open_node(0, 1, 9, 2, 2);
    c.published = 7;
    say(rt, "a twin, both open", c)?;
    let mut d = small();
    d.nodes[3] = open_node(3, 0, 9, 1, 1);
    say(rt, "a node that is its own parent", d)?;
    let mut e = small();
    e.nodes[3] = open_node(4, 0, 9, 1, 1);
    e.nodes[4] = open_node(3, 0, 9, 1, 1);
    say(rt, "two nodes, each the other's parent", e)?;
    Ok(())
}

fn total_faults(rt: &impl Print) -> io::Result<()> {
    let mut a = small();
    a.nodes[0].total = 6;
    say(rt, "a total too large", a)?;
    let mut b = small();
    b.nodes[1].total = 1;
    say(rt, "a total below the count", b)?;
    let mut c = small();
    c.nodes[2].total = 0;
    say(rt, "a closed node with total unlike direct", c)?;
    let mut d = comb();
    d.nodes[9].total = u64::MAX;
    say(rt, "totals whose sum passes 64 bits", d)?;
    Ok(())
}

fn region_faults(rt: &impl Print) -> io::Result<()> {
    let mut a = small();
    a.regions[1].start = 3;
    say(rt, "a region's start", a)?;
    let mut b = small();
    b.regions[1].node = 2;
    say(rt, "a region's node", b)?;
    let mut c = small();
    c.regions[2].offset = 1;
    say(rt, "a region's offset", c)?;
    let mut d = small();
    d.regions[2].length = 2;
    say(rt, "a region past its node's end", d)?;
    let mut e = small();
    e.regions[1].length = 0;
    say(rt, "a region of length 0", e)?;
    let mut f = flat(3);
    f.regions[0].length = 2;
    f.regions[1] = region(2, 0, 2, 1);
    f.region_count = 2;
    say(rt, "two regions in place of one", f)?;
    Ok(())
}

fn region_list_faults(rt: &impl Print) -> io::Result<()> {
    let mut a = small();
    a.regions[0].length = 3;
    a.regions[1] = region(3, 1, 0, 2);
    a.regions[2] = Region::default();
    a.region_count = 2;
    say(rt, "an open row in the middle of a region", a)?;
    let mut b = last_open();
    b.regions[2] = Region::default();
    b.region_count = 2;
    say(rt, "no region for the last open row", b)?;
    let mut c = small();
    c.region_count = 2;
    say(rt, "a region count too small", c)?;
    let mut d = small();
    d.region_count = 4;
    say(rt, "a region count too large", d)?;
    let mut e = comb();
    e.region_count = u64::MAX;
    say(rt, "a region count past the places", e)?;
    let mut f = comb();
    f.regions[510] = Region::default();
    say(rt, "the last region zero", f)?;
    Ok(())
}

fn unused_faults(rt: &impl Print) -> io::Result<()> {
    let mut a = small();
    a.nodes[3].parent = 1;
    say(rt, "an unused place with a parent", a)?;
    let mut b = small();
    b.nodes[3].index = 1;
    say(rt, "an unused place with an index", b)?;
    let mut c = small();
    c.nodes[3].entry = 1;
    say(rt, "an unused place with an entry", c)?;
    let mut d = small();
    d.nodes[3].direct = 1;
    say(rt, "an unused place with a count", d)?;
    let mut e = small();
    e.nodes[3].total = 1;
    say(rt, "an unused place with a total", e)?;
    let mut f = small();
    f.nodes[255].version = 1;
    say(rt, "an unused place with a version", f)?;
    let mut g = small();
    g.regions[511].offset = 1;
    say(rt, "an unused region place that is not zero", g)?;
    Ok(())
}

fn count_faults(rt: &impl Print) -> io::Result<()> {
    let mut a = small();
    a.published = 6;
    say(rt, "a published count one too large", a)?;
    let mut b = small();
    b.published = 4;
    say(rt, "a published count one too small", b)?;
    say(rt, "a row more than there can be", flat(4_294_967_296))?;
    say(rt, "every number 0", full(0, false))?;
    say(
        rt,
        "every number as large as it can be",
        full(u64::MAX, true),
    )?;
    Ok(())
}

fn main(rt: HostRuntime) -> io::Result<()> {
    sound_models(&rt)?;
    capture_faults(&rt)?;
    node_faults(&rt)?;
    pair_faults(&rt)?;
    total_faults(&rt)?;
    region_faults(&rt)?;
    region_list_faults(&rt)?;
    unused_faults(&rt)?;
    count_faults(&rt)
}
