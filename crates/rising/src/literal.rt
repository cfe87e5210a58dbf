// An atom that is added or deleted, as a key.
ghost use Rattle.std.specs.Prelude.{◌≡◌};
ghost use Rattle.rising.specs.Literals.{Before, is_adds};
ghost use Rattle.std.proofs.Common.{rules};

use crate::key::Key;
use std::cmp::Ordering;

// Whether an atom is added or deleted.
#[derive(Clone, Copy, PartialEq, Eq, PartialOrd, Ord, Debug)]
pub enum Sign {
    Adds,
    Deletes,
}

impl Sign {
    // Whether it is added.
    pub fn adds(self) -> bool
        ensures { result ≡ is_adds self }
    {
        self == Sign::Adds
    }
}

// An atom by its number, and whether it is added or deleted: ordered by atom, then added before deleted.
#[derive(Clone, Copy, PartialEq, Eq, PartialOrd, Ord, Debug)]
pub struct Literal {
    pub atom: u32,
    pub sign: Sign,
}

impl Key for Literal {
    ghost before = { Before };

    ghost never = { Prim.search rules };

    ghost chain = { Prim.search rules };

    fn order(&self, other: &Literal) -> Ordering {
        self.cmp(other)
    }
}
