// Some literals of an effect at a time, in a small array.
ghost use Rattle.std.specs.Prelude.{◌≡◌, ◌+◌, ◌<◌, ◌≤◌, length};
ghost use Rattle.runs.specs.Effects.{meant};
ghost use Rattle.runs.specs.Windows.{offered, packed};

use rising::{Literal, Sign};

// Up to 64 literals; `skip` is how many are still to be passed over.
// They stand in an array with a length beside it, since nothing may allocate here; that the length is at most 64 is no ghost field,
// since the specification makes windows field by field.
#[derive(Clone, Copy)]
pub(crate) struct Window {
    pub(crate) items: [Literal; 64],
    pub(crate) len: usize,
    skip: usize,
}

impl Window {
    // An empty window on the literals from number `from` on.
    pub(crate) fn fresh(from: usize) -> Window
        ensures { (result.len ≡ 0) × (result.skip ≡ from) × (length result.items ≡ 64) }
    {
        // all zeros, so that the array is cleared at once
        let none = Literal {
            atom: 0,
            sign: Sign::Adds,
        };
        Window {
            items: [none; 64],
            len: 0,
            skip: from,
        }
    }

    // Whether it takes no more.
    pub(crate) fn is_packed(&self) -> bool
        ensures { result ≡ packed self.now }
    {
        self.skip == 0 && self.len >= 64
    }

    // Passes the literal over, or keeps it while there is a place.
    pub(crate) fn offer(&mut self, literal: Literal)
        ensures { self.new ≡ offered self.old (meant literal) }
    {
        if self.skip > 0 {
            self.skip -= 1;
        } else if self.len < 64 {
            self.items[self.len] = literal;
            self.len += 1;
        }
    }
}
