// New: an empty capture, of which nothing is known but whether it is ongoing.
ghost use Rattle.std.specs.Prelude.{◌≡◌, set, true};
ghost use Rattle.model.specs.Answers.{model_answer};
ghost use Rattle.model.specs.New.{zeros as zero_model, answer_new};

use crate::blank::zeros;
use crate::checks::{check_table, refused};
use model::{Model, Node, Refusal, Refused};

// The model of a capture without children.
fn empty_capture(ongoing: bool) -> Model
    ensures { result ≡ record { nodes = set zero_model.nodes 0 (record { parent = 0; index = 0; entry = 0; direct = 0; total = 0; version = 0; «open» = true; ongoing = ongoing }); regions = zero_model.regions; region_count = 0; published = 0 } }
{
    let mut m = zeros();
    m.nodes[0] = Node {
        open: true,
        ongoing,
        ..Node::default()
    };
    m
}

#[tactic(auto, using(crate::proofs::AnswerNew::new_unreadable, crate::proofs::AnswerNew::new_filled, crate::proofs::AnswerNew::new_done, crate::proofs::AnswerNew::readable_five))]
pub fn new(table: &[u64]) -> Result<Model, Refused>
    ensures { model_answer result ≡ answer_new table.now }
{
    check_table(table, zeros())?;
    if 0 < table[2] {
        return Err(refused(Refusal::FilledCapture, zeros()));
    }
    Ok(empty_capture(table[3] == 0))
}
