// The tables of the books of the worked tasks.
ghost use Rattle.std.specs.Prelude.{◌≡◌};
ghost use Rattle.worked.specs.Tables.{book_table};
ghost use Rattle.worked.specs.Views.{table_in};

use crate::case::Case;
use crate::written::Written;
use book::Sizes;
use table::Kind;

// Atom 0 can change, atom 2 is always true, and object 0 alone can be painted.
const CELL_PAINTED: Written<Sizes> = Written {
    sizes: Sizes {
        atoms: 4,
        relevant: 1,
        always: 1,
        actions: 1,
        entries: 9,
    },
    entries: &[
        (Kind::StartsFalse, 0),
        (Kind::Always, 2),
        (Kind::Fact, 0),
        (Kind::Action, 0),
        (Kind::Object, 0),
        (Kind::Not, 0),
        (Kind::Fact, 0),
        (Kind::And, 1),
        (Kind::Fact, 0),
    ],
};

// Nothing but a goal.
const BARE: Sizes = Sizes {
    atoms: 0,
    relevant: 0,
    always: 0,
    actions: 0,
    entries: 1,
};

const GOAL_TRUE: Written<Sizes> = Written {
    sizes: BARE,
    entries: &[(Kind::True, 0)],
};

const GOAL_FALSE: Written<Sizes> = Written {
    sizes: BARE,
    entries: &[(Kind::False, 0)],
};

const NOT_OF_NOT: Written<Sizes> = Written {
    sizes: Sizes {
        atoms: 1,
        relevant: 1,
        always: 0,
        actions: 1,
        entries: 8,
    },
    entries: &[
        (Kind::StartsFalse, 0),
        (Kind::Not, 0),
        (Kind::Not, 0),
        (Kind::Fact, 0),
        (Kind::Action, 0),
        (Kind::True, 0),
        (Kind::And, 1),
        (Kind::Fact, 0),
    ],
};

// The actions of objects 0 and 1, and of 1 and 0.
const OBJECT_TWICE: Written<Sizes> = Written {
    sizes: Sizes {
        actions: 2,
        entries: 11,
        ..BARE
    },
    entries: &[
        (Kind::True, 0),
        (Kind::Action, 0),
        (Kind::Object, 0),
        (Kind::Object, 1),
        (Kind::True, 0),
        (Kind::And, 0),
        (Kind::Action, 0),
        (Kind::Object, 1),
        (Kind::Object, 0),
        (Kind::True, 0),
        (Kind::And, 0),
    ],
};

const DELETED_AND_ADDED: Written<Sizes> = Written {
    sizes: Sizes {
        atoms: 1,
        relevant: 1,
        always: 0,
        actions: 1,
        entries: 8,
    },
    entries: &[
        (Kind::StartsFalse, 0),
        (Kind::Fact, 0),
        (Kind::Action, 0),
        (Kind::True, 0),
        (Kind::And, 2),
        (Kind::Fact, 0),
        (Kind::Not, 0),
        (Kind::Fact, 0),
    ],
};

impl Case {
    // The table of its book.
    pub fn book(self) -> Written<Sizes>
        ensures { table_in result ≡ book_table self }
    {
        match self {
            Case::CellPainted => CELL_PAINTED,
            Case::GoalTrue | Case::ForallOfNone | Case::AndOfNothing => GOAL_TRUE,
            Case::ExistsOfNone | Case::OrOfNothing => GOAL_FALSE,
            Case::NotOfNot => NOT_OF_NOT,
            Case::ObjectTwice => OBJECT_TWICE,
            Case::DeletedAndAdded => DELETED_AND_ADDED,
        }
    }
}
