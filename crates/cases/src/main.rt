// The small capture of document 01: cases a to l through the operations, and two rows opened in either order.
// The file stdout has what it must print.
#![tactic(auto)]

use model::{Changed, FetchedRow, Model, Refused, RowNumber};
use std::io;

// A line for a refused call: the number, an empty log and the model as it came.
fn refused(rt: &impl Print, name: &str, answer: Refused) -> io::Result<Model> {
    println!(rt; "{name}{} log {}", u64::from(answer.refusal), answer.model)?;
    Ok(answer.model)
}

fn changed(rt: &impl Print, name: &str, answer: Result<Changed, Refused>) -> io::Result<Model> {
    match answer {
        Ok(done) => {
            println!(rt; "{name}0 log{} {}", done.log, done.model)?;
            Ok(done.model)
        }
        Err(answer) => refused(rt, name, answer),
    }
}

fn new(rt: &impl Print, name: &str, table: &[u64]) -> io::Result<Model> {
    match tree_list::new(table) {
        Ok(model) => {
            println!(rt; "{name}0 {model}")?;
            Ok(model)
        }
        Err(answer) => {
            println!(rt; "{name}{} {}", u64::from(answer.refusal), answer.model)?;
            Ok(answer.model)
        }
    }
}

fn update(rt: &impl Print, name: &str, table: &[u64], m: Model) -> io::Result<Model> {
    match tree_list::update(table, m) {
        Ok(done) => {
            let ongoing = if done.ongoing { " ongoing" } else { "" };
            println!(rt; "{name}0{ongoing} log{} {}", done.log, done.model)?;
            Ok(done.model)
        }
        Err(answer) => refused(rt, name, answer),
    }
}

fn open(rt: &impl Print, name: &str, table: &[u64], m: Model, row: u64) -> io::Result<Model> {
    changed(rt, name, tree_list::open(table, m, RowNumber(row)))
}

fn close(rt: &impl Print, name: &str, m: Model, row: u64) -> io::Result<Model> {
    changed(rt, name, tree_list::close(m, RowNumber(row)))
}

fn fetch(rt: &impl Print, name: &str, table: &[u64], m: Model, row: u64) -> io::Result<Model> {
    match tree_list::fetch(table, m, RowNumber(row)) {
        Ok(done) => {
            println!(rt; "{name}0 {}", done.row)?;
            Ok(done.model)
        }
        Err(answer) => {
            println!(rt;
                "{name}{} {}",
                u64::from(answer.refusal),
                FetchedRow::default()
            )?;
            Ok(answer.model)
        }
    }
}

// Cases a to l; t0, t1 and t2 are document 01's tables.
fn small_capture(rt: &impl Print, t0: &[u64], t1: &[u64], t2: &[u64]) -> io::Result<()> {
    let a = new(rt, "a new T0: ", t0)?;
    let b = update(rt, "b update T1: ", t1, a)?;
    let c = open(rt, "c open row 0: ", t1, b, 0)?;
    let d = open(rt, "d open row 2: ", t1, c, 2)?;
    let e = fetch(rt, "e fetch row 8: ", t1, d, 8)?;
    let f = open(rt, "f open row 8: ", t1, e, 8)?;
    let g = update(rt, "g update T2: ", t2, f)?;
    let h = update(rt, "h update T2: ", t2, g)?;
    let third = update(rt, "h update T2 again: ", t2, h)?;
    let i = close(rt, "i close row 0: ", third, 0)?;
    let j = open(rt, "j open row 1: ", t2, i, 1)?;
    let past = fetch(rt, "k fetch row 8: ", t2, j, 8)?;
    let k = fetch(rt, "k fetch row 7: ", t2, past, 7)?;
    update(rt, "l update T1: ", t1, k)?;
    Ok(())
}

// From b, row 0 then row 4, and row 2 then row 0: the same rows; only the nodes' numbers differ.
fn either_order(rt: &impl Print, t0: &[u64], t1: &[u64]) -> io::Result<()> {
    let start = match tree_list::new(t0) {
        Ok(model) => model,
        Err(answer) => answer.model,
    };
    let b = update(rt, "b again: ", t1, start)?;
    let first = open(rt, "open row 0: ", t1, b, 0)?;
    open(rt, "then row 4: ", t1, first, 4)?;
    let other = open(rt, "open row 2: ", t1, b, 2)?;
    open(rt, "then row 0: ", t1, other, 0)?;
    Ok(())
}

fn main(rt: HostRuntime) -> io::Result<()> {
    let t0 = [0, 0, 0, 0, 0];
    let t1 = [0, 0, 3, 0, 0, 0, 0, 2, 1, 0, 0, 2, 1, 0, 7, 1, 1, 4, 1, 0];
    let t2 = [0, 0, 5, 1, 0, 0, 0, 2, 1, 0, 0, 2, 3, 0, 8, 1, 1, 4, 1, 0];
    small_capture(&rt, &t0, &t1, &t2)?;
    either_order(&rt, &t0, &t1)
}
