// Answers: what they are made of, and how they are shown.
ghost use Rattle.std.specs.Prelude.{◌≡◌, Some};
ghost use Rattle.protocol.specs.Machines.{done, told};
ghost use Rattle.protocol.specs.Texts.{answer_text};

use crate::calls::Answer;
use fault::Fault;
use std::fmt;

// A call that was done or refused.
impl From<Result<(), Fault>> for Answer {
    ghost from_gives = { λ given answer. answer ≡ done given };

    fn from(given: Result<(), Fault>) -> Answer {
        match given {
            Ok(()) => Answer::Done,
            Err(fault) => Answer::Refused(fault),
        }
    }
}

// A question that was answered or refused.
impl From<Result<bool, Fault>> for Answer {
    ghost from_gives = { λ given answer. answer ≡ told given };

    fn from(given: Result<bool, Fault>) -> Answer {
        match given {
            Ok(truth) => Answer::Told(truth),
            Err(fault) => Answer::Refused(fault),
        }
    }
}

// As in `no run`, `done`, `true`, `3 steps` and `refused 24 run 3`.
impl fmt::Display for Answer {
    ghost output = { λ answer. Some (answer_text answer) };

    fn fmt<W: fmt::Write>(&self, f: &mut fmt::Formatter<W>) -> fmt::Result {
        match *self {
            Answer::NoRun => write!(f, "no run"),
            Answer::Done => write!(f, "done"),
            Answer::Told(truth) => write!(f, "{truth}"),
            Answer::Count(steps) => write!(f, "{steps} steps"),
            Answer::Refused(fault) => write!(f, "{fault}"),
        }
    }
}
