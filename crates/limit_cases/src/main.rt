// Cases at the limits, through the operations: tables that are refused, 255 followed rows, the most rows there can be, and a
// chain of 255 open rows. The file stdout has what it must print.
#![tactic(auto)]

use model::{Log, Model, Refused, RowNumber};
use std::io;

// The number of a refusal, 0 of a call that is done, and the model that it gives back.
fn outcome(answer: Result<Model, Refused>) -> (u64, Model) {
    match answer {
        Ok(model) => (0, model),
        Err(refused) => (u64::from(refused.refusal), refused.model),
    }
}

// A model of each table: of one that is refused it is of zeros, and refused with 1.
fn show_new(rt: &impl Print, table: &[u64]) -> io::Result<()> {
    let (number, m) = outcome(tree_list::new(table));
    let (refusal, count) = match tree_list::count(m) {
        Ok(count) => (0, count),
        Err(refusal) => (u64::from(refusal), 0),
    };
    println!(rt;
        "new on a table of {} words: {number}, count: {refusal} {count}",
        table.len()
    )
}

fn empty_model() -> Model {
    outcome(tree_list::new(&[0, 0, 0, 0, 0])).1
}

fn updated(rt: &impl Print, table: &[u64], m: Model) -> io::Result<Model> {
    let answer = tree_list::update(table, m);
    let records = answer.map_or(0, |done| done.log.len);
    let (number, model) = outcome(answer.map(|done| done.model));
    println!(rt;
        "update: {number}, total {}, records {records}",
        model.published
    )?;
    Ok(model)
}

fn opened(rt: &impl Print, table: &[u64], m: Model, row: u64) -> io::Result<Model> {
    let answer = tree_list::open(table, m, RowNumber(row));
    let (number, model) = outcome(answer.map(|done| done.model));
    println!(rt; "open row {row}: {number}, total {}", model.published)?;
    Ok(model)
}

// Entry 0 with 300 children, all of them listed and ongoing.
fn wide_table() -> [u64; 1505] {
    let mut table = [0; 1505];
    table[2] = 300;
    for child in 0..300 {
        table[5 * child + 6] = child as u64;
    }
    table
}

// The model after a call on each of the first rows, in turn.
fn on_each_row<F>(m: Model, rows: u64, call: F) -> Model
where
    F: Fn(Model, RowNumber) -> Result<Model, Refused>,
    requires { F.IsAlwaysCallable call }
{
    let mut q = m;
    for row in 0..rows {
        q = outcome(call(q, RowNumber(row))).1;
    }
    q
}

// Rows 0 to 253 are fetched.
fn follow_rows(table: &[u64], m: Model) -> Model {
    on_each_row(
        m,
        254,
        |q, row| tree_list::fetch(table, q, row).map(|done| done.model),
    )
}

fn fetched(rt: &impl Print, table: &[u64], m: Model, row: u64) -> io::Result<Model> {
    let answer = tree_list::fetch(table, m, RowNumber(row));
    let node = answer.map_or(0, |done| done.row.node.unwrap_or(0));
    let (number, model) = outcome(answer.map(|done| done.model));
    println!(rt; "fetch row {row}: {number}, node {node}")?;
    Ok(model)
}

fn released(rt: &impl Print, m: Model, row: u64) -> io::Result<Model> {
    let (number, model) = outcome(tree_list::release(m, RowNumber(row)));
    println!(rt; "release row {row}: {number}")?;
    Ok(model)
}

// The 255th followed row is taken, the next gives 6, and after one release it is taken.
fn followed_rows(rt: &impl Print, table: &[u64]) -> io::Result<()> {
    println!(rt; "254 of 300 ongoing rows are followed")?;
    let m = follow_rows(table, updated(rt, table, empty_model())?);
    let last = fetched(rt, table, m, 254)?;
    let full = fetched(rt, table, last, 255)?;
    let freed = released(rt, full, 7)?;
    let taken = fetched(rt, table, freed, 255)?;
    fetched(rt, table, taken, 300)?;
    Ok(())
}

// A capture of 4,294,967,295 updates, and one more gives 7. With 4,294,967,294 rows, a row with 1 child opens, one with 2 gives 7.
fn most_rows(rt: &impl Print) -> io::Result<()> {
    println!(rt; "as many rows as there can be")?;
    let most = updated(rt, &[0, 0, 4_294_967_295, 0, 0], empty_model())?;
    updated(rt, &[0, 0, 4_294_967_296, 0, 0], most)?;
    let table = [0, 0, 4_294_967_294, 0, 0, 0, 0, 1, 1, 0, 0, 1, 2, 1, 0];
    let nearly = updated(rt, &table, empty_model())?;
    opened(rt, &table, nearly, 1)?;
    opened(rt, &table, nearly, 0)?;
    Ok(())
}

// Entries 0 to 255, each the only child of the one before it, all ongoing, with so many children and this version.
fn chain_table(count: u64, version: u64) -> [u64; 1280] {
    let mut table = [0; 1280];
    for entry in 0..256 {
        let at = 5 * entry;
        table[at] = (entry as u64).saturating_sub(1);
        table[at + 2] = count;
        table[at + 4] = version;
    }
    table
}

// Rows 0 to 254 are opened, each below the one before it.
fn open_chain(table: &[u64], m: Model) -> Model {
    on_each_row(
        m,
        255,
        |q, row| tree_list::open(table, q, row).map(|done| done.model),
    )
}

// The last record, if there is one.
fn last_record(rt: &impl Print, log: &Log) -> io::Result<()> {
    let last = (log.len as usize).checked_sub(1);
    if let Some(x) = last.and_then(|place| log.records.get(place)) {
        print!(rt; " last {x}")?;
    }
    println!(rt; "")
}

// A chain of 255 open rows is updated with 511 records and closed with 255.
fn deep_rows(rt: &impl Print) -> io::Result<()> {
    println!(rt; "255 rows are opened, one below the other")?;
    let one = chain_table(1, 0);
    let two = chain_table(2, 1);
    let chain = open_chain(&one, updated(rt, &one, empty_model())?);
    println!(rt; "total {}, regions {}", chain.published, chain.region_count)?;
    let grown = updated(rt, &two, chain)?;
    match tree_list::close(grown, RowNumber(0)) {
        Ok(done) => {
            print!(rt;
                "close row 0: 0, total {}, records {}",
                done.model.published, done.log.len
            )?;
            last_record(rt, &done.log)
        }
        Err(refused) => {
            let number = u64::from(refused.refusal);
            println!(rt;
                "close row 0: {number}, total {}, records 0",
                refused.model.published
            )
        }
    }
}

fn main(rt: HostRuntime) -> io::Result<()> {
    let words = [0, 0, 0, 0, 0, 0];
    show_new(&rt, &words[..0])?;
    show_new(&rt, &words[..4])?;
    show_new(&rt, &words[..5])?;
    show_new(&rt, &words[..6])?;
    show_new(&rt, &[0, 0, 1, 0, 0])?;
    followed_rows(&rt, &wide_table())?;
    most_rows(&rt)?;
    deep_rows(&rt)
}
