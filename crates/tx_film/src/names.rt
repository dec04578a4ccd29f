//! The key and the session that a step names.
ghost use Rattle.std.specs.Prelude.{◌≡◌, option_map};
ghost use Rattle.tx_steps.specs.Steps.{asked, bytes_of};
ghost use Rattle.tx_film.specs.Lines.{named_by};

use tx_steps::{Call, Op, Step};

/// The key that a step names, where it names one.
pub fn key_named<'a>(step: &Step<&'a str>) -> Option<&'a str>
    ensures { option_map bytes_of result ≡ named_by (asked step.now) }
{
    match *step {
        Step::Act(_, Op::Put(key, _) | Op::Insert(key, _) | Op::Delete(key) | Op::Lock(key)) => {
            Some(key)
        }
        Step::Send(_, Call::Get(key), _) | Step::Read(key, _) | Step::Versions(key) => Some(key),
        _ => None,
    }
}

/// The session of a step, where it is one of a session.
pub fn session_named<'a>(step: &Step<&'a str>) -> Option<&'a str> {
    match *step {
        Step::Begin(name) | Step::Act(name, _) | Step::Send(name, _, _) => Some(name),
        _ => None,
    }
}
