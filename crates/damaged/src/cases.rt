// A small task table, and the ways in which it is damaged.
use adl::Sizes;
use table::Kind;
use trials::{Damage, Resize};

pub const ENTRIES: usize = 46;

pub const SIZES: Sizes = Sizes {
    objects: 3,
    types: 2,
    predicates: 3,
    facts: 2,
    operators: 1,
    entries: 46,
};

pub const TABLE: [(Kind, u32); ENTRIES] = [
    // two types
    (Kind::TypeSet, 3),
    (Kind::TypeSet, 0),
    // three predicates
    (Kind::Predicate, 1),
    (Kind::Predicate, 2),
    (Kind::Predicate, 0),
    // two facts
    (Kind::Atom, 0),
    (Kind::Object, 0),
    (Kind::Atom, 1),
    (Kind::Object, 0),
    (Kind::Object, 2),
    // the goal, from place 10
    (Kind::And, 2),
    (Kind::Forall, 0),
    (Kind::Imply, 0),
    (Kind::Atom, 0),
    (Kind::Variable, 0),
    (Kind::Exists, 1),
    (Kind::Atom, 1),
    (Kind::Variable, 0),
    (Kind::Variable, 1),
    (Kind::Not, 0),
    (Kind::Equal, 0),
    (Kind::Object, 1),
    (Kind::Object, 2),
    // an operator, from place 23
    (Kind::Operator, 2),
    (Kind::Parameter, 0),
    (Kind::Parameter, 0),
    (Kind::Or, 2),
    (Kind::True, 0),
    (Kind::Atom, 2),
    // its effect, from place 29
    (Kind::And, 3),
    (Kind::Atom, 0),
    (Kind::Variable, 0),
    (Kind::Not, 0),
    (Kind::Atom, 1),
    (Kind::Variable, 0),
    (Kind::Variable, 1),
    (Kind::Forall, 0),
    (Kind::When, 0),
    (Kind::Atom, 1),
    (Kind::Variable, 0),
    (Kind::Variable, 2),
    (Kind::And, 2),
    (Kind::Atom, 2),
    (Kind::Not, 0),
    (Kind::Atom, 0),
    (Kind::Variable, 2),
];

pub const DAMAGES: [Damage; 39] = [
    Damage {
        words: "nothing",
        at: 0,
        kind: Kind::TypeSet as u8,
        operand: 3,
    },
    Damage {
        words: "a type with a bit for no object",
        at: 0,
        kind: Kind::TypeSet as u8,
        operand: 8,
    },
    Damage {
        words: "a type with a bit beyond 32 bits of objects",
        at: 1,
        kind: Kind::TypeSet as u8,
        operand: 4294967295,
    },
    Damage {
        words: "a predicate where a type should stand",
        at: 1,
        kind: Kind::Predicate as u8,
        operand: 0,
    },
    Damage {
        words: "a predicate of arity 4",
        at: 2,
        kind: Kind::Predicate as u8,
        operand: 4,
    },
    Damage {
        words: "a type where a predicate should stand",
        at: 2,
        kind: Kind::TypeSet as u8,
        operand: 1,
    },
    Damage {
        words: "a predicate of arity 0 with an argument in its fact",
        at: 2,
        kind: Kind::Predicate as u8,
        operand: 0,
    },
    Damage {
        words: "a predicate of arity 3 with two arguments in its fact",
        at: 3,
        kind: Kind::Predicate as u8,
        operand: 3,
    },
    Damage {
        words: "a fact of no predicate",
        at: 5,
        kind: Kind::Atom as u8,
        operand: 3,
    },
    Damage {
        words: "a fact that is TRUE",
        at: 5,
        kind: Kind::True as u8,
        operand: 0,
    },
    Damage {
        words: "a fact of an object that is not there",
        at: 6,
        kind: Kind::Object as u8,
        operand: 3,
    },
    Damage {
        words: "a variable in a fact",
        at: 6,
        kind: Kind::Variable as u8,
        operand: 0,
    },
    Damage {
        words: "an action as the goal",
        at: 10,
        kind: Kind::Action as u8,
        operand: 0,
    },
    Damage {
        words: "a kind that does not exist",
        at: 10,
        kind: 22,
        operand: 0,
    },
    Damage {
        words: "the highest kind",
        at: 10,
        kind: 255,
        operand: 0,
    },
    Damage {
        words: "a goal with one part too many",
        at: 10,
        kind: Kind::And as u8,
        operand: 3,
    },
    Damage {
        words: "a goal with one part too few",
        at: 10,
        kind: Kind::And as u8,
        operand: 1,
    },
    Damage {
        words: "a quantifier over no type",
        at: 11,
        kind: Kind::Forall as u8,
        operand: 2,
    },
    Damage {
        words: "IMPLY with an operand",
        at: 12,
        kind: Kind::Imply as u8,
        operand: 1,
    },
    Damage {
        words: "a variable that is not yet known",
        at: 14,
        kind: Kind::Variable as u8,
        operand: 1,
    },
    Damage {
        words: "a WHEN in a formula",
        at: 15,
        kind: Kind::When as u8,
        operand: 0,
    },
    Damage {
        words: "the inner variable used outside",
        at: 17,
        kind: Kind::Variable as u8,
        operand: 2,
    },
    Damage {
        words: "a formula where a term should stand",
        at: 18,
        kind: Kind::True as u8,
        operand: 0,
    },
    Damage {
        words: "NOT with an operand",
        at: 19,
        kind: Kind::Not as u8,
        operand: 7,
    },
    Damage {
        words: "EQUAL of an object that is not there",
        at: 22,
        kind: Kind::Object as u8,
        operand: 3,
    },
    Damage {
        words: "an operator with five parameters",
        at: 23,
        kind: Kind::Operator as u8,
        operand: 5,
    },
    Damage {
        words: "an operator with one parameter, and two",
        at: 23,
        kind: Kind::Operator as u8,
        operand: 1,
    },
    Damage {
        words: "a parameter of no type",
        at: 25,
        kind: Kind::Parameter as u8,
        operand: 2,
    },
    Damage {
        words: "a fact of a book in a precondition",
        at: 27,
        kind: Kind::Fact as u8,
        operand: 0,
    },
    Damage {
        words: "an effect that is an OR",
        at: 29,
        kind: Kind::Or as u8,
        operand: 3,
    },
    Damage {
        words: "an effect that is a truth",
        at: 30,
        kind: Kind::True as u8,
        operand: 0,
    },
    Damage {
        words: "an effect that is an EXISTS",
        at: 36,
        kind: Kind::Exists as u8,
        operand: 0,
    },
    Damage {
        words: "NOT NOT in an effect",
        at: 33,
        kind: Kind::Not as u8,
        operand: 0,
    },
    Damage {
        words: "a FORALL in a consequent",
        at: 41,
        kind: Kind::Forall as u8,
        operand: 0,
    },
    Damage {
        words: "a WHEN in a consequent",
        at: 41,
        kind: Kind::When as u8,
        operand: 0,
    },
    Damage {
        words: "an AND after NOT in a consequent",
        at: 44,
        kind: Kind::And as u8,
        operand: 0,
    },
    Damage {
        words: "the last variable one too far",
        at: 45,
        kind: Kind::Variable as u8,
        operand: 3,
    },
    Damage {
        words: "a consequent with one part too many",
        at: 41,
        kind: Kind::And as u8,
        operand: 3,
    },
    Damage {
        words: "an effect with no operand for its FORALL's type",
        at: 36,
        kind: Kind::Forall as u8,
        operand: 9,
    },
];

pub const RESIZES: [Resize<Sizes>; 14] = [
    Resize {
        words: "no objects",
        sizes: Sizes {
            objects: 0,
            ..SIZES
        },
    },
    Resize {
        words: "33 objects",
        sizes: Sizes {
            objects: 33,
            ..SIZES
        },
    },
    Resize {
        words: "33 types",
        sizes: Sizes { types: 33, ..SIZES },
    },
    Resize {
        words: "33 predicates",
        sizes: Sizes {
            predicates: 33,
            ..SIZES
        },
    },
    Resize {
        words: "4097 facts",
        sizes: Sizes {
            facts: 4097,
            ..SIZES
        },
    },
    Resize {
        words: "33 operators",
        sizes: Sizes {
            operators: 33,
            ..SIZES
        },
    },
    Resize {
        words: "no entries",
        sizes: Sizes {
            entries: 0,
            ..SIZES
        },
    },
    Resize {
        words: "16385 entries",
        sizes: Sizes {
            entries: 16385,
            ..SIZES
        },
    },
    Resize {
        words: "one entry fewer",
        sizes: Sizes {
            entries: 45,
            ..SIZES
        },
    },
    Resize {
        words: "one entry more",
        sizes: Sizes {
            entries: 47,
            ..SIZES
        },
    },
    Resize {
        words: "one type more",
        sizes: Sizes { types: 3, ..SIZES },
    },
    Resize {
        words: "one fact more",
        sizes: Sizes { facts: 3, ..SIZES },
    },
    Resize {
        words: "one operator more",
        sizes: Sizes {
            operators: 2,
            ..SIZES
        },
    },
    Resize {
        words: "one operator fewer",
        sizes: Sizes {
            operators: 0,
            ..SIZES
        },
    },
];
