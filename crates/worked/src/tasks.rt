// The tables of the worked tasks.
ghost use Rattle.std.specs.Prelude.{◌≡◌};
ghost use Rattle.worked.specs.Tables.{task_table};
ghost use Rattle.worked.specs.Views.{table_in};

use crate::case::Case;
use crate::written::Written;
use adl::Sizes;
use table::Kind;

// Two objects of one type. Predicate 1 is a fact of object 0; the operator gives predicate 0 to an object that has predicate 1, while no
// object has predicate 0. The goal is predicate 0 of object 0.
const CELL_PAINTED: Written<Sizes> = Written {
    sizes: Sizes {
        objects: 2,
        types: 1,
        predicates: 2,
        facts: 1,
        operators: 1,
        entries: 18,
    },
    entries: &[
        (Kind::TypeSet, 3),
        (Kind::Predicate, 1),
        (Kind::Predicate, 1),
        (Kind::Atom, 1),
        (Kind::Object, 0),
        (Kind::Atom, 0),
        (Kind::Object, 0),
        (Kind::Operator, 1),
        (Kind::Parameter, 0),
        (Kind::And, 2),
        (Kind::Atom, 1),
        (Kind::Variable, 0),
        (Kind::Not, 0),
        (Kind::Exists, 0),
        (Kind::Atom, 0),
        (Kind::Variable, 1),
        (Kind::Atom, 0),
        (Kind::Variable, 0),
    ],
};

// One object and a goal.
const BARE: Sizes = Sizes {
    objects: 1,
    types: 0,
    predicates: 0,
    facts: 0,
    operators: 0,
    entries: 1,
};

const GOAL_TRUE: Written<Sizes> = Written {
    sizes: BARE,
    entries: &[(Kind::True, 0)],
};

const OR_OF_NOTHING: Written<Sizes> = Written {
    sizes: BARE,
    entries: &[(Kind::Or, 0)],
};

const AND_OF_NOTHING: Written<Sizes> = Written {
    sizes: BARE,
    entries: &[(Kind::And, 0)],
};

// A type without objects comes to it.
const FORALL_OF_NONE: Written<Sizes> = Written {
    sizes: Sizes {
        types: 1,
        entries: 3,
        ..BARE
    },
    entries: &[(Kind::TypeSet, 0), (Kind::Forall, 0), (Kind::False, 0)],
};

const EXISTS_OF_NONE: Written<Sizes> = Written {
    sizes: Sizes {
        types: 1,
        entries: 3,
        ..BARE
    },
    entries: &[(Kind::TypeSet, 0), (Kind::Exists, 0), (Kind::True, 0)],
};

// A predicate of no arguments, and an operator that adds its atom.
const NOT_OF_NOT: Written<Sizes> = Written {
    sizes: Sizes {
        predicates: 1,
        operators: 1,
        entries: 7,
        ..BARE
    },
    entries: &[
        (Kind::Predicate, 0),
        (Kind::Not, 0),
        (Kind::Not, 0),
        (Kind::Atom, 0),
        (Kind::Operator, 0),
        (Kind::True, 0),
        (Kind::Atom, 0),
    ],
};

// Two objects of one type, and an operator that takes two of them and changes nothing.
const OBJECT_TWICE: Written<Sizes> = Written {
    sizes: Sizes {
        objects: 2,
        types: 1,
        operators: 1,
        entries: 7,
        ..BARE
    },
    entries: &[
        (Kind::TypeSet, 3),
        (Kind::True, 0),
        (Kind::Operator, 2),
        (Kind::Parameter, 0),
        (Kind::Parameter, 0),
        (Kind::True, 0),
        (Kind::And, 0),
    ],
};

// A predicate of no arguments, and an operator that adds and deletes its atom.
const DELETED_AND_ADDED: Written<Sizes> = Written {
    sizes: Sizes {
        predicates: 1,
        operators: 1,
        entries: 8,
        ..BARE
    },
    entries: &[
        (Kind::Predicate, 0),
        (Kind::Atom, 0),
        (Kind::Operator, 0),
        (Kind::True, 0),
        (Kind::And, 2),
        (Kind::Atom, 0),
        (Kind::Not, 0),
        (Kind::Atom, 0),
    ],
};

impl Case {
    // The table of the task.
    pub fn task(self) -> Written<Sizes>
        ensures { table_in result ≡ task_table self }
    {
        match self {
            Case::CellPainted => CELL_PAINTED,
            Case::GoalTrue => GOAL_TRUE,
            Case::ForallOfNone => FORALL_OF_NONE,
            Case::ExistsOfNone => EXISTS_OF_NONE,
            Case::OrOfNothing => OR_OF_NOTHING,
            Case::AndOfNothing => AND_OF_NOTHING,
            Case::NotOfNot => NOT_OF_NOT,
            Case::ObjectTwice => OBJECT_TWICE,
            Case::DeletedAndAdded => DELETED_AND_ADDED,
        }
    }
}
