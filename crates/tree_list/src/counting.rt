// Count: the published count (the Rust's n_items).
ghost use Rattle.std.specs.Prelude.{◌≡◌};
ghost use Rattle.model.specs.Answers.{count_answer};
ghost use Rattle.model.specs.Count.{answer_count};

use model::{Model, Refusal};

pub fn count(m: Model) -> Result<u64, Refusal>
    ensures { count_answer result ≡ answer_count m }
{
    if sound::is_sound(m) {
        Ok(m.published)
    } else {
        Err(Refusal::UnsoundModel)
    }
}
