// How the values of several formulas are joined.
ghost use Rattle.std.specs.Prelude.{◌≡◌};
ghost use Rattle.model.specs.Meaning.{empty};

#[derive(Clone, Copy, PartialEq, Eq, Debug)]
pub enum Junction {
    // whether all are true
    All,
    // whether any is
    Any,
}

impl Junction {
    ghost use Rattle.protocol.specs.Junctions.{joining};

    // The value of no formulas at all: a formula with the other value decides.
    pub fn of_none(self) -> bool
        ensures { result ≡ empty (joining self) }
    {
        match self {
            Junction::All => true,
            Junction::Any => false,
        }
    }
}
