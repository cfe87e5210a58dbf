// Answers in words.
ghost use Rattle.std.specs.Prelude.{Some};
ghost use Rattle.trials.specs.Telling.{answer_text};

use fault::Fault;
use std::fmt;

// What a call answers: words where it is good, or the refusal.
#[derive(Clone, Copy)]
pub struct Told(pub Result<&'static str, Fault>);

impl fmt::Display for Told {
    ghost output = { λ told. Some (answer_text told.0) };

    fn fmt<W: fmt::Write>(&self, f: &mut fmt::Formatter<W>) -> fmt::Result {
        match self.0 {
            Ok(words) => write!(f, "{words}"),
            Err(fault) => write!(f, "{fault}"),
        }
    }
}
