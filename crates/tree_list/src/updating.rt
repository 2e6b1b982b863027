// Update: each followed row is visited, unless an item went back or there would be too many rows.
//
// A step's node has a plain number, as in `model::Node`, and is asked to be below 256 where it is read.
ghost use Rattle.std.specs.Prelude.{◌≡◌, ◌<◌, true, false, [], All, ltb};
ghost use Rattle.model.specs.Answers.{update_answer};
ghost use Rattle.model.specs.Places.{row_limit};
ghost use Rattle.model.specs.Table.{readable, item_count};
ghost use Rattle.model.specs.Nodes.{node_at};
ghost use Rattle.model.specs.Rows.{row_total};
ghost use Rattle.model.specs.Logs.{state};
ghost use Rattle.model.specs.Update.{visits, any_went_back, steps as all_steps, answer_update};
ghost use Rattle.steps.specs.Course.{node_of};
ghost use Rattle.steps.specs.Growth.{added_rows};
ghost use Rattle.tree_list.specs.Updating.{node_back, step_back, step_rows};

use crate::checks::{SoundModel, check_model, check_table, refused};
use crate::items::{is_listed, item_count};
use crate::visits::run_visits;
use model::{Model, Node, ROW_LIMIT, Refusal, Refused, Step, Updated};

// How many children the table gives an entry; none if it isn't there. That takes a table that ends with a whole entry,
// here and below: four clauses, where a type for such a table would have four methods.
fn count_or_none(table: &[u64], entry: u64) -> u64
    requires { readable table.now ≡ true }
    ensures { result ≡ item_count table.now entry }
{
    if is_listed(table, entry) {
        item_count(table, entry)
    } else {
        0
    }
}

// Whether a node's item went back: it isn't in the table, or has fewer children than recorded.
fn went_back(table: &[u64], n: Node) -> bool
    ensures { result ≡ node_back table.now n }
{
    !is_listed(table, n.entry) || item_count(table, n.entry) < n.direct
}

// Whether the item of a text step's node went back; a growth step asks nothing.
fn step_back(table: &[u64], nodes: &[Node; 256], step: Step) -> bool
    requires { node_of step < 256 }
    ensures { result ≡ step_back table.now (node_at nodes.now (node_of step)) step }
{
    match step {
        Step::Text(k) => went_back(table, nodes[k as usize]),
        Step::Grow(_) => false,
    }
}

// Whether any visited item went back.
fn any_went_back(table: &[u64], nodes: &[Node; 256], steps: &[Step]) -> bool
    requires { All (λ e. node_of e < 256) steps.now }
    ensures { result ≡ any_went_back table.now nodes.now steps.now }
{
    steps.iter().any(|step| step_back(table, nodes, *step))
}

// The rows that a node's added children are: none of a closed one's.
fn added_rows(table: &[u64], n: Node) -> u64
    requires { readable table.now ≡ true }
    ensures { result ≡ added_rows table.now n }
{
    if n.open {
        count_or_none(table, n.entry).saturating_sub(n.direct)
    } else {
        0
    }
}

// A growth step adds its node's rows.
fn step_rows(table: &[u64], nodes: &[Node; 256], step: Step) -> u64
    requires table_value { readable table.now ≡ true }
    requires bound { node_of step < 256 }
    ensures { result ≡ step_rows table.now (node_at nodes.now (node_of step)) step }
{
    match step {
        Step::Text(_) => 0,
        Step::Grow(k) => added_rows(table, nodes[k as usize]),
    }
}

// Whether there would be too many rows after all growth, of items that didn't go back.
fn passes_limit(table: &[u64], m: SoundModel, steps: &[Step]) -> bool
    requires table_value { readable table.now ≡ true }
    requires steps_value { steps.now ≡ visits m.model.nodes }
    requires nodes_value { any_went_back table.now m.model.nodes steps.now ≡ false }
    ensures { result ≡ ltb row_limit (row_total (all_steps table.now (state m.model.nodes []) steps.now).nodes) }
{
    let mut sum = m.model.published;
    for step in steps {
        let rows = step_rows(table, &m.model.nodes, *step);
        if ROW_LIMIT - sum < rows {
            return true;
        }
        sum += rows;
    }
    false
}

pub fn update(table: &[u64], m: Model) -> Result<Updated, Refused>
    ensures { update_answer result ≡ answer_update table.now m }
{
    let checked = check_model(m)?;
    check_table(table, m)?;
    let order = orders::visits(checked.model);
    let steps = order.as_slice();
    if any_went_back(table, &checked.model.nodes, steps) {
        return Err(refused(Refusal::WentBack, m));
    }
    if passes_limit(table, checked, steps) {
        return Err(refused(Refusal::TooManyRows, m));
    }
    Ok(run_visits(table, checked, steps))
}
