// The refusal to play.
ghost use Rattle.std.specs.Prelude.{Some, codes};

use std::fmt;

// There are fewer places for answers than calls.
#[derive(Clone, Copy, PartialEq, Eq, Debug)]
pub struct TooFewPlaces;

impl fmt::Display for TooFewPlaces {
    ghost output = { λ _. Some (codes "too few places for answers") };

    fn fmt<W: fmt::Write>(&self, f: &mut fmt::Formatter<W>) -> fmt::Result {
        write!(f, "too few places for answers")
    }
}
