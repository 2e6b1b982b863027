// Close: the rows below a row go, with what is open there first. A closed row is done with no change.
ghost use Rattle.std.specs.Prelude.{◌≡◌, suc, ◌^◌, ◌<◌, Ok};
ghost use Rattle.model.specs.Answers.{change_answer};
ghost use Rattle.model.specs.Logs.{rows_change};
ghost use Rattle.model.specs.Close.{close_node, answer_close};
ghost use Rattle.tree.specs.WellFormed.{Opens};
ghost use Rattle.tree_list.specs.Logging.{logged};

use crate::checks::{SoundModel, check_model, refused};
use crate::logs::{log_also, no_log, unchanged};
use crate::rows::row_at;
use model::{Changed, Kind, Log, Model, Record, Refusal, Refused, RowNumber};

// One record more, for which there is room, as `log_also` asks: so many rows go from below a row.
fn log_closing(log: &mut Log, row: RowNumber, count: u64)
    requires len_bound { log.old.len < 512 }
    requires row_bound { suc row.0 < 2 ^ 64 }
    ensures { log.new ≡ logged log.old (rows_change (suc row.0) count 0) }
{
    let change = Record {
        kind: Kind::Rows,
        position: row.0 + 1,
        removed: count,
        added: 0,
    };
    log_also(log, change);
}

// An open node is closed, after those that are open below it.
fn close_all(m: SoundModel, node: u64) -> Changed
    requires node_nonzero { 0 < node }
    requires opens { Opens m.model.nodes node }
    ensures { change_answer (Ok result) ≡ close_node m.model node }
{
    let order = orders::closing_order(m.model, node as usize);
    let mut q = m.model;
    let mut log = no_log();
    for &k in order.as_slice() {
        // earlier closings may have moved its row; its count is as it was
        let row = totals::row_of(q, k);
        log_closing(&mut log, row, m.model.nodes[k as usize].direct);
        q = edits::close_node(q, k);
    }
    Changed { model: q, log }
}

pub fn close(m: Model, row: RowNumber) -> Result<Changed, Refused>
    ensures { change_answer result ≡ answer_close m row.0 }
{
    let checked = check_model(m)?;
    let Some(place) = regions::find_region(m, row) else {
        return Err(refused(Refusal::PastRows, m));
    };
    let (parent, index) = row_at(checked, place, row);
    let Some(node) = nodes::open_child_of(m, parent, index) else {
        return Ok(unchanged(m));
    };
    Ok(close_all(checked, node))
}
