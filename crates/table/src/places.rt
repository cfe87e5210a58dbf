// Which kinds may stand at which place.
ghost use Rattle.std.specs.Prelude.{◌≡◌};
ghost use Rattle.table.specs.Kinds.{code_of};
ghost use Rattle.table.specs.Permits.{permitted};

use crate::kind::Kind;

// Where an entry stands.
#[derive(Clone, Copy, PartialEq, Eq, Debug)]
pub enum Place {
    // a type set
    TypeSet,
    // a predicate
    Predicate,
    // the first entry of a fact
    Fact,
    // an operator
    Operator,
    // a parameter
    Parameter,
    // a formula
    Formula,
    // a term
    Term,
    // an effect
    Effect,
    // what follows the condition of WHEN
    Consequent,
    // what stands after NOT in an effect or a consequent
    Negated,
    // an atom of a book that starts true or false
    Relevant,
    // an atom of a book that is always true
    Always,
    // a formula of a book
    Ground,
    // the first entry of an action
    Action,
    // the effect of an action
    Clauses,
    // a part of it
    Clause,
    // the literals of a WHEN in a book
    Literals,
    // one of them
    Literal,
    // what stands after NOT in a literal
    NegatedFact,
}

// A column for each kind, in the order of the codes.
#[derive(Clone, Copy)]
struct Row {
    kinds: [bool; 22],
}

// A row for each place, in the order of the places. Written out: the project wants one constant table with a row for each place and a column
// for each kind.
const PERMITS: [Row; 19] = [
    // TypeSet: TypeSet
    Row {
        kinds: [
            false, false, false, false, false, false, false, false, false, false, false, false,
            false, false, true, false, false, false, false, false, false, false,
        ],
    },
    // Predicate: Predicate
    Row {
        kinds: [
            false, false, false, false, false, false, false, false, false, false, false, false,
            false, false, false, true, false, false, false, false, false, false,
        ],
    },
    // Fact: Atom
    Row {
        kinds: [
            false, false, true, false, false, false, false, false, false, false, false, false,
            false, false, false, false, false, false, false, false, false, false,
        ],
    },
    // Operator: Operator
    Row {
        kinds: [
            false, false, false, false, false, false, false, false, false, false, false, false,
            false, false, false, false, true, false, false, false, false, false,
        ],
    },
    // Parameter: Parameter
    Row {
        kinds: [
            false, false, false, false, false, false, false, false, false, false, false, false,
            false, false, false, false, false, true, false, false, false, false,
        ],
    },
    // Formula: True, False, Atom, Equal, Not, And, Or, Imply, Forall, Exists
    Row {
        kinds: [
            true, true, true, true, true, true, true, true, true, true, false, false, false, false,
            false, false, false, false, false, false, false, false,
        ],
    },
    // Term: Object, Variable
    Row {
        kinds: [
            false, false, false, false, false, false, false, false, false, false, true, true,
            false, false, false, false, false, false, false, false, false, false,
        ],
    },
    // Effect: Atom, Not, And, Forall, When
    Row {
        kinds: [
            false, false, true, false, true, true, false, false, true, false, false, false, true,
            false, false, false, false, false, false, false, false, false,
        ],
    },
    // Consequent: Atom, Not, And
    Row {
        kinds: [
            false, false, true, false, true, true, false, false, false, false, false, false, false,
            false, false, false, false, false, false, false, false, false,
        ],
    },
    // Negated: Atom
    Row {
        kinds: [
            false, false, true, false, false, false, false, false, false, false, false, false,
            false, false, false, false, false, false, false, false, false, false,
        ],
    },
    // Relevant: StartsTrue, StartsFalse
    Row {
        kinds: [
            false, false, false, false, false, false, false, false, false, false, false, false,
            false, false, false, false, false, false, false, true, true, false,
        ],
    },
    // Always: Always
    Row {
        kinds: [
            false, false, false, false, false, false, false, false, false, false, false, false,
            false, false, false, false, false, false, false, false, false, true,
        ],
    },
    // Ground: True, False, Not, And, Or, Fact
    Row {
        kinds: [
            true, true, false, false, true, true, true, false, false, false, false, false, false,
            true, false, false, false, false, false, false, false, false,
        ],
    },
    // Action: Action
    Row {
        kinds: [
            false, false, false, false, false, false, false, false, false, false, false, false,
            false, false, false, false, false, false, true, false, false, false,
        ],
    },
    // Clauses: And
    Row {
        kinds: [
            false, false, false, false, false, true, false, false, false, false, false, false,
            false, false, false, false, false, false, false, false, false, false,
        ],
    },
    // Clause: Not, When, Fact
    Row {
        kinds: [
            false, false, false, false, true, false, false, false, false, false, false, false,
            true, true, false, false, false, false, false, false, false, false,
        ],
    },
    // Literals: And
    Row {
        kinds: [
            false, false, false, false, false, true, false, false, false, false, false, false,
            false, false, false, false, false, false, false, false, false, false,
        ],
    },
    // Literal: Not, Fact
    Row {
        kinds: [
            false, false, false, false, true, false, false, false, false, false, false, false,
            false, true, false, false, false, false, false, false, false, false,
        ],
    },
    // NegatedFact: Fact
    Row {
        kinds: [
            false, false, false, false, false, false, false, false, false, false, false, false,
            false, true, false, false, false, false, false, false, false, false,
        ],
    },
];

// Whether the kind may stand at the place.
pub fn permits(place: Place, kind: Kind) -> bool
    ensures { result ≡ permitted place (code_of kind) }
{
    PERMITS[place as usize].kinds[kind as usize]
}
