// Logs: of no change, of one, and of one more.
ghost use Rattle.std.specs.Prelude.{◌≡◌, [], ◌∷◌, ◌<◌, Ok};
ghost use Rattle.model.specs.Answers.{no_change, change_answer};
ghost use Rattle.model.specs.Logs.{log_of};
ghost use Rattle.tree_list.specs.Logging.{logged};

use model::{Changed, Log, Model, Record};

pub fn no_log() -> Log
    ensures { result ≡ log_of [] }
{
    Log::default()
}

// What a call answers that is done with no change.
pub fn unchanged(m: Model) -> Changed
    ensures { change_answer (Ok result) ≡ no_change 0 m }
{
    Changed {
        model: m,
        log: no_log(),
    }
}

pub fn log_of_one(change: Record) -> Log
    ensures { result ≡ log_of (change ∷ []) }
{
    let mut log = no_log();
    log.records[0] = change;
    log.len = 1;
    log
}

// One record more, for which there is room: a full log is a log too, so it is asked here and no invariant.
pub fn log_also(log: &mut Log, change: Record)
    requires { log.old.len < 512 }
    ensures { log.new ≡ logged log.old change }
{
    log.records[log.len as usize] = change;
    log.len += 1;
}
