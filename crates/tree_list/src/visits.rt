// The steps of an update carried out: the text of a row, and the growth of a node.
ghost use Rattle.std.specs.Prelude.{◌≡◌, false, ◌&&◌, [], Ok, ltb, ◌-◌, ◌<◌, ◌≤◌};
ghost use Rattle.model.specs.Answers.{update_answer};
ghost use Rattle.model.specs.Places.{row_limit};
ghost use Rattle.model.specs.Nodes.{node_at};
ghost use Rattle.model.specs.Rows.{row_total, row_of};
ghost use Rattle.model.specs.Logs.{text_change, rows_change, state};
ghost use Rattle.model.specs.Update.{visits, any_went_back, steps as all_steps, end_of, updated};
ghost use Rattle.model.specs.declared.Step.TheVariants.{Text, Grow};
ghost use Rattle.tree.specs.WellFormed.{Used};
ghost use Rattle.steps.specs.Settled.{Sound};
ghost use Rattle.tree_list.specs.Logging.{logged};
ghost use Rattle.tree_list.specs.Visiting.{logged_when, Texted, Grown, Stepping, Does};

use crate::checks::SoundModel;
use crate::items::{item_count, item_ongoing, item_version};
use crate::logs::{log_also, no_log};
use model::{Changed, Kind, Log, Model, Record, Step, Updated};

// The text of a node's row changed. Between two steps the model stands in a `Changed`, so that its soundness is a clause
// here: `Texted` and `Grown` say it together with what the step needs. Room in the log is asked as `log_also` asks it.
// The steps write to the model and the log where they lie: by value, each would copy both several times over.
fn log_text(m: Model, log: &mut Log, k: u64)
    requires sound { Sound m }
    requires used { Used m.nodes k }
    requires k_nonzero { 0 < k }
    requires len_bound { log.old.len < 512 }
    ensures { log.new ≡ logged log.old (text_change (row_of m.nodes k)) }
{
    let row = totals::row_of(m, k);
    log_also(
        log,
        Record {
            kind: Kind::Text,
            position: row.0,
            removed: 0,
            added: 0,
        },
    );
}

// A row's text is due if children were added, or else if the version differs, which is recorded then.
fn text_step(table: &[u64], p: &mut Changed, k: u64)
    requires { Texted table.now p.old k }
    ensures { Does table.now p.old (Text k) p.new }
{
    if k == 0 {
        return;
    }
    let n = p.model.nodes[k as usize];
    if n.direct < item_count(table, n.entry) {
        log_text(p.model, &mut p.log, k);
        return;
    }
    let version = item_version(table, n.entry);
    if n.version == version {
        return;
    }
    log_text(p.model, &mut p.log, k);
    p.model = edits::set_version(p.model, k, version);
}

// The rows that an open node has more come after its last one.
fn log_rows(m: Model, log: &mut Log, k: u64, count: u64)
    requires sound { Sound m }
    requires used { Used m.nodes k }
    requires len_bound { log.old.len < 512 }
    ensures { log.new ≡ logged_when ((node_at m.nodes k).«open» && ltb 0 (count - (node_at m.nodes k).direct)) log.old (rows_change (end_of m.nodes k) 0 (count - (node_at m.nodes k).direct)) }
{
    let n = m.nodes[k as usize];
    if !n.open || count <= n.direct {
        return;
    }
    let end = edits::end_of(m, k);
    log_also(
        log,
        Record {
            kind: Kind::Rows,
            position: end.0,
            removed: 0,
            added: count - n.direct,
        },
    );
}

fn growth_step(table: &[u64], p: &mut Changed, k: u64)
    requires { Grown table.now p.old k }
    ensures { Does table.now p.old (Grow k) p.new }
{
    let entry = p.model.nodes[k as usize].entry;
    let count = item_count(table, entry);
    let ongoing = item_ongoing(table, entry);
    log_rows(p.model, &mut p.log, k, count);
    p.model = edits::grow_step(p.model, k, count, ongoing);
}

fn visit_step(table: &[u64], p: &mut Changed, step: Step)
    requires { Stepping table.now p.old step }
    ensures { Does table.now p.old step p.new }
{
    match step {
        Step::Text(k) => text_step(table, p, k),
        Step::Grow(k) => growth_step(table, p, k),
    }
}

// All visits of an update, of which none went back and which keep the rows within their limit.
pub fn run_visits(table: &[u64], m: SoundModel, steps: &[Step]) -> Updated
    requires steps_value { steps.now ≡ visits m.model.nodes }
    requires nodes_value { any_went_back table.now m.model.nodes steps.now ≡ false }
    requires nodes_bound { row_total (all_steps table.now (state m.model.nodes []) steps.now).nodes ≤ row_limit }
    ensures { update_answer (Ok result) ≡ updated m.model (all_steps table.now (state m.model.nodes []) steps.now) }
{
    let mut p = Changed {
        model: m.model,
        log: no_log(),
    };
    for step in steps {
        visit_step(table, &mut p, *step);
    }
    Updated {
        model: p.model,
        log: p.log,
        ongoing: p.model.nodes[0].ongoing,
    }
}
