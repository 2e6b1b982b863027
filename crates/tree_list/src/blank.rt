// A model of zeros.
ghost use Rattle.std.specs.Prelude.{◌≡◌};
ghost use Rattle.model.specs.New.{zeros};

use model::Model;

pub fn zeros() -> Model
    ensures { result ≡ zeros }
{
    Model::default()
}
