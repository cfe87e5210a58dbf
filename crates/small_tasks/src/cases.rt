// Small tasks, and the calls that are played on each.
use adl::Sizes;
use protocol::{Call, Name};
use table::Kind;

// A task table is written in two parts: its types and predicates, and its facts, its goal and its operators.
pub struct Case {
    pub words: &'static str,
    pub sizes: Sizes,
    pub declared: &'static [(Kind, u32)],
    pub rest: &'static [(Kind, u32)],
    pub calls: &'static [Call<'static>],
}

// Asks for the goal alone.
const GOAL: &[Call] = &[Call::Begin, Call::Goal, Call::End];

// Three objects; types of objects 0 and 1, of none and of all; predicates of one argument, of two and of none.
const THREE_SIZES: Sizes = Sizes {
    objects: 3,
    types: 3,
    predicates: 3,
    facts: 1,
    operators: 0,
    entries: 10,
};

const THREE: &[(Kind, u32)] = &[
    (Kind::TypeSet, 3),
    (Kind::TypeSet, 0),
    (Kind::TypeSet, 7),
    (Kind::Predicate, 1),
    (Kind::Predicate, 2),
    (Kind::Predicate, 0),
];

// No types; three predicates of no arguments.
const BARE_SIZES: Sizes = Sizes {
    objects: 1,
    types: 0,
    predicates: 3,
    facts: 0,
    operators: 1,
    entries: 10,
};

const BARE: &[(Kind, u32)] = &[
    (Kind::Predicate, 0),
    (Kind::Predicate, 0),
    (Kind::Predicate, 0),
];

// Two objects, of which one type has the second and one has both; the goal is that both have the predicate.
const TWO_SIZES: Sizes = Sizes {
    objects: 2,
    types: 2,
    predicates: 1,
    facts: 0,
    operators: 2,
    entries: 18,
};

const TWO: &[(Kind, u32)] = &[(Kind::TypeSet, 2), (Kind::TypeSet, 3), (Kind::Predicate, 1)];

const TWO_REST: &[(Kind, u32)] = &[
    (Kind::Forall, 1),
    (Kind::Atom, 0),
    (Kind::Variable, 0),
    (Kind::Operator, 2),
    (Kind::Parameter, 0),
    (Kind::Parameter, 0),
    (Kind::True, 0),
    (Kind::Atom, 0),
    (Kind::Variable, 0),
    (Kind::Operator, 2),
    (Kind::Parameter, 1),
    (Kind::Parameter, 1),
    (Kind::True, 0),
    (Kind::Atom, 0),
    (Kind::Variable, 1),
];

// Four objects, of which one type has all and one has the middle two; the goal is that all have the predicate.
const FOUR_SIZES: Sizes = Sizes {
    objects: 4,
    types: 2,
    predicates: 1,
    facts: 1,
    operators: 2,
    entries: 30,
};

const FOUR: &[(Kind, u32)] = &[
    (Kind::TypeSet, 15),
    (Kind::TypeSet, 6),
    (Kind::Predicate, 1),
];

const FOUR_REST: &[(Kind, u32)] = &[
    (Kind::Atom, 0),
    (Kind::Object, 3),
    (Kind::Forall, 0),
    (Kind::Atom, 0),
    (Kind::Variable, 0),
    (Kind::Operator, 0),
    (Kind::True, 0),
    (Kind::Forall, 1),
    (Kind::Atom, 0),
    (Kind::Variable, 0),
    (Kind::Operator, 1),
    (Kind::Parameter, 1),
    (Kind::Not, 0),
    (Kind::Atom, 0),
    (Kind::Variable, 0),
    (Kind::Forall, 0),
    (Kind::When, 0),
    (Kind::Not, 0),
    (Kind::Equal, 0),
    (Kind::Variable, 0),
    (Kind::Variable, 1),
    (Kind::And, 2),
    (Kind::Atom, 0),
    (Kind::Variable, 1),
    (Kind::Not, 0),
    (Kind::Atom, 0),
    (Kind::Variable, 0),
];

pub const CASES: [Case; 34] = [
    Case {
        words: "FORALL over an empty type",
        sizes: THREE_SIZES,
        declared: THREE,
        rest: &[
            (Kind::Atom, 0),
            (Kind::Object, 0),
            (Kind::Forall, 1),
            (Kind::False, 0),
        ],
        calls: GOAL,
    },
    Case {
        words: "EXISTS over an empty type",
        sizes: THREE_SIZES,
        declared: THREE,
        rest: &[
            (Kind::Atom, 0),
            (Kind::Object, 0),
            (Kind::Exists, 1),
            (Kind::True, 0),
        ],
        calls: GOAL,
    },
    Case {
        words: "OR of nothing",
        sizes: Sizes {
            entries: 9,
            ..THREE_SIZES
        },
        declared: THREE,
        rest: &[(Kind::Atom, 0), (Kind::Object, 0), (Kind::Or, 0)],
        calls: GOAL,
    },
    Case {
        words: "AND of nothing",
        sizes: Sizes {
            entries: 9,
            ..THREE_SIZES
        },
        declared: THREE,
        rest: &[(Kind::Atom, 0), (Kind::Object, 0), (Kind::And, 0)],
        calls: GOAL,
    },
    Case {
        words: "EQUAL of one object",
        sizes: Sizes {
            entries: 11,
            ..THREE_SIZES
        },
        declared: THREE,
        rest: &[
            (Kind::Atom, 0),
            (Kind::Object, 0),
            (Kind::Equal, 0),
            (Kind::Object, 1),
            (Kind::Object, 1),
        ],
        calls: GOAL,
    },
    Case {
        words: "EQUAL of two objects",
        sizes: Sizes {
            entries: 11,
            ..THREE_SIZES
        },
        declared: THREE,
        rest: &[
            (Kind::Atom, 0),
            (Kind::Object, 0),
            (Kind::Equal, 0),
            (Kind::Object, 0),
            (Kind::Object, 1),
        ],
        calls: GOAL,
    },
    Case {
        words: "IMPLY from false",
        sizes: Sizes {
            entries: 11,
            ..THREE_SIZES
        },
        declared: THREE,
        rest: &[
            (Kind::Atom, 0),
            (Kind::Object, 0),
            (Kind::Imply, 0),
            (Kind::False, 0),
            (Kind::False, 0),
        ],
        calls: GOAL,
    },
    Case {
        words: "IMPLY from true to false",
        sizes: Sizes {
            entries: 11,
            ..THREE_SIZES
        },
        declared: THREE,
        rest: &[
            (Kind::Atom, 0),
            (Kind::Object, 0),
            (Kind::Imply, 0),
            (Kind::True, 0),
            (Kind::False, 0),
        ],
        calls: GOAL,
    },
    Case {
        words: "IMPLY from true to true",
        sizes: Sizes {
            entries: 11,
            ..THREE_SIZES
        },
        declared: THREE,
        rest: &[
            (Kind::Atom, 0),
            (Kind::Object, 0),
            (Kind::Imply, 0),
            (Kind::True, 0),
            (Kind::True, 0),
        ],
        calls: GOAL,
    },
    Case {
        words: "an atom that is a fact",
        sizes: THREE_SIZES,
        declared: THREE,
        rest: &[
            (Kind::Atom, 0),
            (Kind::Object, 0),
            (Kind::Atom, 0),
            (Kind::Object, 0),
        ],
        calls: GOAL,
    },
    Case {
        words: "an atom that is no fact",
        sizes: THREE_SIZES,
        declared: THREE,
        rest: &[
            (Kind::Atom, 0),
            (Kind::Object, 0),
            (Kind::Atom, 0),
            (Kind::Object, 1),
        ],
        calls: GOAL,
    },
    Case {
        words: "FORALL with one member false",
        sizes: Sizes {
            entries: 11,
            ..THREE_SIZES
        },
        declared: THREE,
        rest: &[
            (Kind::Atom, 0),
            (Kind::Object, 0),
            (Kind::Forall, 0),
            (Kind::Atom, 0),
            (Kind::Variable, 0),
        ],
        calls: GOAL,
    },
    Case {
        words: "EXISTS with one member true",
        sizes: Sizes {
            entries: 11,
            ..THREE_SIZES
        },
        declared: THREE,
        rest: &[
            (Kind::Atom, 0),
            (Kind::Object, 0),
            (Kind::Exists, 0),
            (Kind::Atom, 0),
            (Kind::Variable, 0),
        ],
        calls: GOAL,
    },
    Case {
        words: "every object has another",
        sizes: Sizes {
            entries: 14,
            ..THREE_SIZES
        },
        declared: THREE,
        rest: &[
            (Kind::Atom, 0),
            (Kind::Object, 0),
            (Kind::Forall, 2),
            (Kind::Exists, 2),
            (Kind::Not, 0),
            (Kind::Equal, 0),
            (Kind::Variable, 0),
            (Kind::Variable, 1),
        ],
        calls: GOAL,
    },
    Case {
        words: "some object is every other",
        sizes: Sizes {
            entries: 13,
            ..THREE_SIZES
        },
        declared: THREE,
        rest: &[
            (Kind::Atom, 0),
            (Kind::Object, 0),
            (Kind::Exists, 0),
            (Kind::Forall, 0),
            (Kind::Equal, 0),
            (Kind::Variable, 0),
            (Kind::Variable, 1),
        ],
        calls: GOAL,
    },
    Case {
        words: "three quantifiers",
        sizes: Sizes {
            entries: 19,
            ..THREE_SIZES
        },
        declared: THREE,
        rest: &[
            (Kind::Atom, 0),
            (Kind::Object, 0),
            (Kind::Forall, 0),
            (Kind::Exists, 0),
            (Kind::Forall, 0),
            (Kind::Or, 2),
            (Kind::Equal, 0),
            (Kind::Variable, 0),
            (Kind::Variable, 1),
            (Kind::Not, 0),
            (Kind::Equal, 0),
            (Kind::Variable, 1),
            (Kind::Variable, 2),
        ],
        calls: GOAL,
    },
    Case {
        words: "an atom of two quantified objects",
        sizes: Sizes {
            entries: 14,
            ..THREE_SIZES
        },
        declared: THREE,
        rest: &[
            (Kind::Atom, 1),
            (Kind::Object, 2),
            (Kind::Object, 0),
            (Kind::Exists, 2),
            (Kind::Exists, 2),
            (Kind::Atom, 1),
            (Kind::Variable, 0),
            (Kind::Variable, 1),
        ],
        calls: GOAL,
    },
    Case {
        words: "its arguments the other way round",
        sizes: Sizes {
            entries: 13,
            ..THREE_SIZES
        },
        declared: THREE,
        rest: &[
            (Kind::Atom, 1),
            (Kind::Object, 2),
            (Kind::Object, 0),
            (Kind::Exists, 0),
            (Kind::Atom, 1),
            (Kind::Variable, 0),
            (Kind::Object, 2),
        ],
        calls: GOAL,
    },
    Case {
        words: "an atom with no arguments",
        sizes: Sizes {
            entries: 8,
            ..THREE_SIZES
        },
        declared: THREE,
        rest: &[(Kind::Atom, 2), (Kind::Atom, 2)],
        calls: GOAL,
    },
    Case {
        words: "a fact given twice",
        sizes: Sizes {
            facts: 2,
            entries: 12,
            ..THREE_SIZES
        },
        declared: THREE,
        rest: &[
            (Kind::Atom, 0),
            (Kind::Object, 0),
            (Kind::Atom, 0),
            (Kind::Object, 0),
            (Kind::Atom, 0),
            (Kind::Object, 0),
        ],
        calls: GOAL,
    },
    Case {
        words: "adding and deleting one atom",
        sizes: BARE_SIZES,
        declared: BARE,
        rest: &[
            (Kind::Atom, 0),
            (Kind::Operator, 0),
            (Kind::True, 0),
            (Kind::And, 2),
            (Kind::Atom, 0),
            (Kind::Not, 0),
            (Kind::Atom, 0),
        ],
        calls: &[
            Call::Begin,
            Call::Perform(Name {
                operator: 0,
                objects: &[],
            }),
            Call::Goal,
            Call::Holds(0),
            Call::End,
        ],
    },
    Case {
        words: "deleting and adding one atom",
        sizes: Sizes {
            facts: 1,
            entries: 11,
            ..BARE_SIZES
        },
        declared: BARE,
        rest: &[
            (Kind::Atom, 0),
            (Kind::Atom, 0),
            (Kind::Operator, 0),
            (Kind::True, 0),
            (Kind::And, 2),
            (Kind::Not, 0),
            (Kind::Atom, 0),
            (Kind::Atom, 0),
        ],
        calls: &[
            Call::Begin,
            Call::Perform(Name {
                operator: 0,
                objects: &[],
            }),
            Call::Goal,
            Call::End,
        ],
    },
    Case {
        words: "a WHEN judged before the deletes",
        sizes: Sizes {
            facts: 1,
            entries: 13,
            ..BARE_SIZES
        },
        declared: BARE,
        rest: &[
            (Kind::Atom, 1),
            (Kind::Atom, 0),
            (Kind::Operator, 0),
            (Kind::True, 0),
            (Kind::And, 2),
            (Kind::Not, 0),
            (Kind::Atom, 1),
            (Kind::When, 0),
            (Kind::Atom, 1),
            (Kind::Atom, 0),
        ],
        calls: &[
            Call::Begin,
            Call::Perform(Name {
                operator: 0,
                objects: &[],
            }),
            Call::Goal,
            Call::Holds(1),
            Call::End,
        ],
    },
    Case {
        words: "a WHEN that does not count",
        sizes: Sizes {
            entries: 9,
            ..BARE_SIZES
        },
        declared: BARE,
        rest: &[
            (Kind::Atom, 0),
            (Kind::Operator, 0),
            (Kind::True, 0),
            (Kind::When, 0),
            (Kind::Atom, 1),
            (Kind::Atom, 0),
        ],
        calls: &[
            Call::Begin,
            Call::Perform(Name {
                operator: 0,
                objects: &[],
            }),
            Call::Goal,
            Call::End,
        ],
    },
    Case {
        words: "a precondition that is false, then true",
        sizes: Sizes {
            objects: 1,
            types: 0,
            predicates: 2,
            facts: 0,
            operators: 2,
            entries: 9,
        },
        declared: &[(Kind::Predicate, 0), (Kind::Predicate, 0)],
        rest: &[
            (Kind::Atom, 0),
            (Kind::Operator, 0),
            (Kind::Atom, 1),
            (Kind::Atom, 0),
            (Kind::Operator, 0),
            (Kind::True, 0),
            (Kind::Atom, 1),
        ],
        calls: &[
            Call::Begin,
            Call::Perform(Name {
                operator: 0,
                objects: &[],
            }),
            Call::Perform(Name {
                operator: 1,
                objects: &[],
            }),
            Call::Perform(Name {
                operator: 0,
                objects: &[],
            }),
            Call::Goal,
            Call::End,
        ],
    },
    Case {
        words: "an effect of nothing",
        sizes: Sizes {
            entries: 7,
            ..BARE_SIZES
        },
        declared: BARE,
        rest: &[
            (Kind::Atom, 0),
            (Kind::Operator, 0),
            (Kind::True, 0),
            (Kind::And, 0),
        ],
        calls: &[
            Call::Begin,
            Call::Perform(Name {
                operator: 0,
                objects: &[],
            }),
            Call::Goal,
            Call::End,
        ],
    },
    Case {
        words: "a name with an object twice",
        sizes: TWO_SIZES,
        declared: TWO,
        rest: TWO_REST,
        calls: &[
            Call::Begin,
            Call::Perform(Name {
                operator: 0,
                objects: &[1, 1],
            }),
            Call::Goal,
            Call::End,
        ],
    },
    Case {
        words: "names that do not fit",
        sizes: TWO_SIZES,
        declared: TWO,
        rest: TWO_REST,
        calls: &[
            Call::Begin,
            Call::Perform(Name {
                operator: 2,
                objects: &[],
            }),
            Call::Perform(Name {
                operator: 1,
                objects: &[0],
            }),
            Call::Perform(Name {
                operator: 1,
                objects: &[0, 2],
            }),
            Call::Perform(Name {
                operator: 1,
                objects: &[0, 1, 1],
            }),
            Call::Perform(Name {
                operator: 1,
                objects: &[1, 0],
            }),
            Call::Holds(0),
            Call::End,
        ],
    },
    Case {
        words: "FORALL in an effect",
        sizes: FOUR_SIZES,
        declared: FOUR,
        rest: FOUR_REST,
        calls: &[
            Call::Begin,
            Call::Perform(Name {
                operator: 0,
                objects: &[],
            }),
            Call::Holds(0),
            Call::Holds(1),
            Call::Holds(2),
            Call::Holds(3),
            Call::Goal,
            Call::End,
        ],
    },
    Case {
        words: "FORALL and WHEN in an effect",
        sizes: FOUR_SIZES,
        declared: FOUR,
        rest: FOUR_REST,
        calls: &[
            Call::Begin,
            Call::Perform(Name {
                operator: 1,
                objects: &[2],
            }),
            Call::Holds(0),
            Call::Holds(1),
            Call::Holds(2),
            Call::Holds(3),
            Call::End,
        ],
    },
    Case {
        words: "calls with no run",
        sizes: TWO_SIZES,
        declared: TWO,
        rest: TWO_REST,
        calls: &[
            Call::Perform(Name {
                operator: 1,
                objects: &[0, 1],
            }),
            Call::Holds(0),
            Call::Goal,
            Call::End,
            Call::Begin,
            Call::Perform(Name {
                operator: 1,
                objects: &[0, 1],
            }),
            Call::End,
            Call::Perform(Name {
                operator: 1,
                objects: &[1, 0],
            }),
            Call::Begin,
            Call::Holds(1),
            Call::End,
        ],
    },
    Case {
        words: "a begin during a run",
        sizes: TWO_SIZES,
        declared: TWO,
        rest: TWO_REST,
        calls: &[
            Call::Begin,
            Call::Perform(Name {
                operator: 1,
                objects: &[0, 1],
            }),
            Call::Holds(1),
            Call::Begin,
            Call::Holds(1),
            Call::Perform(Name {
                operator: 1,
                objects: &[0, 1],
            }),
            Call::Perform(Name {
                operator: 1,
                objects: &[1, 0],
            }),
            Call::Goal,
            Call::End,
        ],
    },
    Case {
        words: "an atom that is not there",
        sizes: TWO_SIZES,
        declared: TWO,
        rest: TWO_REST,
        calls: &[Call::Begin, Call::Holds(1), Call::Holds(2), Call::End],
    },
    Case {
        words: "a store that is too small",
        sizes: Sizes {
            objects: 9,
            types: 1,
            predicates: 1,
            facts: 0,
            operators: 0,
            entries: 3,
        },
        declared: &[(Kind::TypeSet, 1), (Kind::Predicate, 2)],
        rest: &[(Kind::True, 0)],
        calls: GOAL,
    },
];
