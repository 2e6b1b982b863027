// Document 01's numbers for refusals and for kinds of records.
ghost use Rattle.std.specs.Prelude.{◌≡◌};

use crate::{Kind, Refusal};

impl From<Refusal> for u64 {
    ghost use Rattle.model.specs.Answers.{number};

    ghost from_gives = { λ refusal n. n ≡ number refusal };

    fn from(refusal: Refusal) -> u64
        ensures { result ≡ number refusal }
    {
        match refusal {
            Refusal::UnsoundModel => 1,
            Refusal::UnreadableTable => 2,
            Refusal::FilledCapture => 3,
            Refusal::PastRows => 4,
            Refusal::NothingBelow => 5,
            Refusal::NodesFull => 6,
            Refusal::TooManyRows => 7,
            Refusal::WentBack => 8,
            Refusal::RowOpen => 9,
        }
    }
}

impl From<Kind> for u64 {
    ghost use Rattle.model.specs.Logs.{kind_number};

    ghost from_gives = { λ kind n. n ≡ kind_number kind };

    fn from(kind: Kind) -> u64
        ensures { result ≡ kind_number kind }
    {
        match kind {
            Kind::Nothing => 0,
            Kind::Rows => 1,
            Kind::Text => 2,
        }
    }
}
