// Release: a closed row is followed no longer.
//
// `node ≡ unless_zero k` says which number k the definitions, which have 0 for none, take for the option. A number is plain,
// as in `model::Node`, and asked to be below 256 where it is read.
ghost use Rattle.std.specs.Prelude.{◌≡◌, ℕ, ◌<◌, Some};
ghost use Rattle.model.specs.Places.{unless_zero};
ghost use Rattle.model.specs.Answers.{model_answer};
ghost use Rattle.model.specs.Release.{release_node, answer_release};

use crate::checks::{SoundModel, check_model, refused};
use crate::rows::row_at;
use model::{Model, Node, Refusal, Refused, RowNumber};

// A row's node, if it has one, is freed, unless it is open.
fn release_node(m: SoundModel, node: Option<u64>) -> Result<Model, Refused>
    requires { (k : ℕ) → node ≡ Some k → k < 256 }
    ensures { (k : ℕ) → node ≡ unless_zero k → model_answer result ≡ release_node m.model k }
{
    let mut q = m.model;
    let Some(k) = node else {
        return Ok(q);
    };
    if q.nodes[k as usize].open {
        return Err(refused(Refusal::RowOpen, q));
    }
    q.nodes[k as usize] = Node::default();
    Ok(q)
}

pub fn release(m: Model, row: RowNumber) -> Result<Model, Refused>
    ensures { model_answer result ≡ answer_release m row.0 }
{
    let checked = check_model(m)?;
    let Some(place) = regions::find_region(m, row) else {
        return Err(refused(Refusal::PastRows, m));
    };
    let (parent, index) = row_at(checked, place, row);
    release_node(checked, nodes::child_of(m, parent, index))
}
