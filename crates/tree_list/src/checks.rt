// The tests that come first in document 01's order, and what a refusal gives back.
ghost use Rattle.std.specs.Prelude.{◌≡◌, true, false, OnOk, IfOk, IfErr};
ghost use Rattle.model.specs.Sound.{sound};
ghost use Rattle.model.specs.Table.{readable};
ghost use Rattle.model.specs.declared.Refusal.TheVariants.{UnsoundModel, UnreadableTable};

use model::{Model, Refusal, Refused};

// A model that was found to be sound: what is behind the first test goes on with it.
#[derive(Clone, Copy)]
pub struct SoundModel {
    pub model: Model,
    ghost sound: { sound model ≡ true },
}

// A refused call gives back the model as it came.
pub fn refused(refusal: Refusal, model: Model) -> Refused
    ensures { result ≡ record { refusal = refusal; model = model } }
{
    Refused { refusal, model }
}

// Refusal 1.
pub fn check_model(m: Model) -> Result<SoundModel, Refused>
    ensures ok { IfOk result (λ checked. checked.model ≡ m) }
    ensures err { IfErr result (λ e. (sound m ≡ false) × (e ≡ record { refusal = UnsoundModel; model = m })) }
{
    if sound::is_sound(m) {
        Ok(SoundModel { model: m })
    } else {
        Err(refused(Refusal::UnsoundModel, m))
    }
}

// Refusal 2.
pub fn check_table(table: &[u64], m: Model) -> Result<(), Refused>
    ensures ok { OnOk result (readable table.now ≡ true) }
    ensures err { IfErr result (λ e. (readable table.now ≡ false) × (e ≡ record { refusal = UnreadableTable; model = m })) }
{
    if table::is_readable(table) {
        Ok(())
    } else {
        Err(refused(Refusal::UnreadableTable, m))
    }
}
