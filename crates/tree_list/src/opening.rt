// Open: a row's children become rows below it. An open row is done with no change.
//
// `node ≡ unless_zero k` says which number k the definitions, which have 0 for none, take for the option.
ghost use Rattle.std.specs.Prelude.{◌≡◌, ℕ, [], ◌∷◌, suc, ◌<◌, ◌^◌, Ok};
ghost use Rattle.model.specs.Places.{unless_zero};
ghost use Rattle.model.specs.Answers.{change_answer};
ghost use Rattle.model.specs.Logs.{rows_change};
ghost use Rattle.model.specs.Open.{changed, number_or_free, open_node, answer_open};
ghost use Rattle.tree_list.specs.OpenedRow.{CanOpen};

use crate::checks::{SoundModel, check_model, check_table, refused};
use crate::fetching::node_or_fresh;
use crate::logs::{log_of_one, unchanged};
use crate::rows::row_at;
use model::{Changed, Kind, Model, Node, ROW_LIMIT, Record, Refusal, Refused, RowNumber};

// The number that a row's node has, or would get, if one is free.
fn number_or_free(m: Model, node: Option<u64>) -> Option<u64>
    ensures { (k : ℕ) → node ≡ unless_zero k → result ≡ unless_zero (number_or_free m.nodes k) }
{
    node.or_else(|| nodes::free_place(m))
}

// The model with so many rows more below a row, and the log that says so.
fn grown_below(m: Model, row: RowNumber, count: u64) -> Changed
    requires { suc row.0 < 2 ^ 64 }
    ensures { change_answer (Ok result) ≡ changed m (rows_change (suc row.0) 0 count ∷ []) }
{
    let log = log_of_one(Record {
        kind: Kind::Rows,
        position: row.0 + 1,
        removed: 0,
        added: count,
    });
    Changed { model: m, log }
}

// A row with node n, which has a number, or would get one.
fn open_row(
    m: SoundModel,
    place: usize,
    row: RowNumber,
    node: Option<u64>,
    n: Node,
) -> Result<Changed, Refused>
    requires { (k : ℕ) × (node ≡ unless_zero k) × CanOpen m.model place row.0 (number_or_free m.model.nodes k) n }
    ensures { (k : ℕ) → node ≡ unless_zero k → change_answer result ≡ open_node m.model row.0 n (number_or_free m.model.nodes k) }
{
    let m = m.model;
    if n.open {
        return Ok(unchanged(m));
    }
    if n.direct == 0 {
        return Err(refused(Refusal::NothingBelow, m));
    }
    let Some(number) = number_or_free(m, node) else {
        return Err(refused(Refusal::NodesFull, m));
    };
    if ROW_LIMIT - m.published < n.direct {
        return Err(refused(Refusal::TooManyRows, m));
    }
    let opened = edits::open_node(m, place, row, number, n);
    Ok(grown_below(opened, row, n.direct))
}

pub fn open(table: &[u64], m: Model, row: RowNumber) -> Result<Changed, Refused>
    ensures { change_answer result ≡ answer_open table.now m row.0 }
{
    let checked = check_model(m)?;
    check_table(table, m)?;
    let Some(place) = regions::find_region(m, row) else {
        return Err(refused(Refusal::PastRows, m));
    };
    let (parent, index) = row_at(checked, place, row);
    let node = nodes::child_of(m, parent, index);
    let n = node_or_fresh(table, m, parent, index, node);
    open_row(checked, place, row, node, n)
}
