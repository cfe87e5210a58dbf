// A small book table, and the ways in which it is damaged.
use book::Sizes;
use table::Kind;
use trials::{Damage, Resize};

pub const ENTRIES: usize = 50;

pub const SIZES: Sizes = Sizes {
    atoms: 8,
    relevant: 3,
    always: 2,
    actions: 4,
    entries: 50,
};

pub const TABLE: [(Kind, u32); ENTRIES] = [
    // relevant atoms
    (Kind::StartsTrue, 1),
    (Kind::StartsFalse, 3),
    (Kind::StartsTrue, 5),
    // atoms that are always true
    (Kind::Always, 2),
    (Kind::Always, 6),
    // the goal, from place 5
    (Kind::And, 2),
    (Kind::Fact, 0),
    (Kind::Not, 0),
    (Kind::Or, 2),
    (Kind::Fact, 1),
    (Kind::False, 0),
    // an action, from place 11
    (Kind::Action, 0),
    (Kind::Object, 0),
    (Kind::Object, 1),
    (Kind::True, 0),
    (Kind::And, 3),
    (Kind::Fact, 0),
    (Kind::Not, 0),
    (Kind::Fact, 1),
    (Kind::When, 0),
    (Kind::Fact, 2),
    (Kind::And, 1),
    (Kind::Not, 0),
    (Kind::Fact, 2),
    // an action, from place 24
    (Kind::Action, 0),
    (Kind::Object, 0),
    (Kind::Object, 1),
    (Kind::Object, 2),
    (Kind::Object, 3),
    (Kind::Not, 0),
    (Kind::Fact, 0),
    (Kind::And, 0),
    // an action, from place 32
    (Kind::Action, 0),
    (Kind::Object, 0),
    (Kind::Object, 2),
    (Kind::Fact, 2),
    (Kind::And, 1),
    (Kind::Fact, 1),
    // an action, from place 38
    (Kind::Action, 31),
    (Kind::Or, 2),
    (Kind::Fact, 0),
    (Kind::Fact, 1),
    (Kind::And, 2),
    (Kind::When, 0),
    (Kind::And, 0),
    (Kind::And, 2),
    (Kind::Fact, 0),
    (Kind::Not, 0),
    (Kind::Fact, 1),
    (Kind::Fact, 2),
];

pub const DAMAGES: [Damage; 46] = [
    Damage {
        words: "nothing",
        at: 0,
        kind: Kind::StartsTrue as u8,
        operand: 1,
    },
    Damage {
        words: "an atom that is not there",
        at: 2,
        kind: Kind::StartsFalse as u8,
        operand: 8,
    },
    Damage {
        words: "a relevant atom that comes again",
        at: 1,
        kind: Kind::StartsFalse as u8,
        operand: 1,
    },
    Damage {
        words: "relevant atoms that do not rise",
        at: 2,
        kind: Kind::StartsTrue as u8,
        operand: 2,
    },
    Damage {
        words: "an always true atom among the relevant",
        at: 1,
        kind: Kind::Always as u8,
        operand: 3,
    },
    Damage {
        words: "a relevant atom among the always true",
        at: 4,
        kind: Kind::StartsTrue as u8,
        operand: 6,
    },
    Damage {
        words: "an always true atom that comes again",
        at: 4,
        kind: Kind::Always as u8,
        operand: 2,
    },
    Damage {
        words: "an always true atom that is not there",
        at: 4,
        kind: Kind::Always as u8,
        operand: 8,
    },
    Damage {
        words: "an always true atom that is relevant too",
        at: 4,
        kind: Kind::Always as u8,
        operand: 5,
    },
    Damage {
        words: "the first always true atom is relevant too",
        at: 3,
        kind: Kind::Always as u8,
        operand: 1,
    },
    Damage {
        words: "a goal with one part too many",
        at: 5,
        kind: Kind::And as u8,
        operand: 3,
    },
    Damage {
        words: "a goal with one part too few",
        at: 5,
        kind: Kind::And as u8,
        operand: 1,
    },
    Damage {
        words: "a goal with very many parts",
        at: 5,
        kind: Kind::And as u8,
        operand: 4294967295,
    },
    Damage {
        words: "a goal that is a WHEN",
        at: 5,
        kind: Kind::When as u8,
        operand: 0,
    },
    Damage {
        words: "a goal that is an atom",
        at: 5,
        kind: Kind::Atom as u8,
        operand: 0,
    },
    Damage {
        words: "a goal with a quantifier",
        at: 6,
        kind: Kind::Forall as u8,
        operand: 0,
    },
    Damage {
        words: "a kind that does not exist",
        at: 6,
        kind: 22,
        operand: 0,
    },
    Damage {
        words: "the highest kind",
        at: 6,
        kind: 255,
        operand: 0,
    },
    Damage {
        words: "a fact that is not there",
        at: 6,
        kind: Kind::Fact as u8,
        operand: 3,
    },
    Damage {
        words: "NOT with an operand",
        at: 7,
        kind: Kind::Not as u8,
        operand: 1,
    },
    Damage {
        words: "FALSE with an operand",
        at: 10,
        kind: Kind::False as u8,
        operand: 1,
    },
    Damage {
        words: "a formula where an action should stand",
        at: 11,
        kind: Kind::True as u8,
        operand: 0,
    },
    Damage {
        words: "an action of no operator",
        at: 38,
        kind: Kind::Action as u8,
        operand: 32,
    },
    Damage {
        words: "an object beyond the last",
        at: 13,
        kind: Kind::Object as u8,
        operand: 32,
    },
    Damage {
        words: "an action without its precondition",
        at: 14,
        kind: Kind::And as u8,
        operand: 3,
    },
    Damage {
        words: "an effect that is a fact",
        at: 15,
        kind: Kind::Fact as u8,
        operand: 0,
    },
    Damage {
        words: "an effect that is an OR",
        at: 15,
        kind: Kind::Or as u8,
        operand: 3,
    },
    Damage {
        words: "a part of an effect that is TRUE",
        at: 16,
        kind: Kind::True as u8,
        operand: 0,
    },
    Damage {
        words: "an AND in an effect",
        at: 16,
        kind: Kind::And as u8,
        operand: 0,
    },
    Damage {
        words: "an effect on a fact that is not there",
        at: 16,
        kind: Kind::Fact as u8,
        operand: 3,
    },
    Damage {
        words: "NOT NOT in an effect",
        at: 18,
        kind: Kind::Not as u8,
        operand: 0,
    },
    Damage {
        words: "a WHEN with an operand",
        at: 19,
        kind: Kind::When as u8,
        operand: 1,
    },
    Damage {
        words: "a WHEN with no literals",
        at: 21,
        kind: Kind::And as u8,
        operand: 0,
    },
    Damage {
        words: "a WHEN with an OR of literals",
        at: 21,
        kind: Kind::Or as u8,
        operand: 1,
    },
    Damage {
        words: "a WHEN with one literal too many",
        at: 21,
        kind: Kind::And as u8,
        operand: 2,
    },
    Damage {
        words: "a WHEN inside a WHEN",
        at: 22,
        kind: Kind::When as u8,
        operand: 0,
    },
    Damage {
        words: "a literal that is FALSE",
        at: 22,
        kind: Kind::False as u8,
        operand: 0,
    },
    Damage {
        words: "a literal on a fact that is not there",
        at: 23,
        kind: Kind::Fact as u8,
        operand: 7,
    },
    Damage {
        words: "a name that is a fifth object longer",
        at: 29,
        kind: Kind::Object as u8,
        operand: 4,
    },
    Damage {
        words: "a name that comes before the one before it",
        at: 26,
        kind: Kind::Object as u8,
        operand: 0,
    },
    Damage {
        words: "a name whose last object comes too early",
        at: 34,
        kind: Kind::Object as u8,
        operand: 0,
    },
    Damage {
        words: "a name that begins the one before it",
        at: 34,
        kind: Kind::Object as u8,
        operand: 1,
    },
    Damage {
        words: "a name that is the one before it",
        at: 27,
        kind: Kind::True as u8,
        operand: 0,
    },
    Damage {
        words: "an operator that comes before the one before it",
        at: 11,
        kind: Kind::Action as u8,
        operand: 1,
    },
    Damage {
        words: "a type",
        at: 38,
        kind: Kind::TypeSet as u8,
        operand: 0,
    },
    Damage {
        words: "a last entry that is no literal",
        at: 49,
        kind: Kind::Object as u8,
        operand: 0,
    },
];

pub const RESIZES: [Resize<Sizes>; 17] = [
    Resize {
        words: "65537 atoms",
        sizes: Sizes {
            atoms: 65537,
            ..SIZES
        },
    },
    Resize {
        words: "fewer atoms than are listed",
        sizes: Sizes { atoms: 4, ..SIZES },
    },
    Resize {
        words: "as many atoms as the highest that is listed",
        sizes: Sizes { atoms: 6, ..SIZES },
    },
    Resize {
        words: "one relevant atom more",
        sizes: Sizes {
            relevant: 4,
            ..SIZES
        },
    },
    Resize {
        words: "one relevant atom fewer",
        sizes: Sizes {
            relevant: 2,
            ..SIZES
        },
    },
    Resize {
        words: "more relevant atoms than atoms",
        sizes: Sizes {
            relevant: 9,
            ..SIZES
        },
    },
    Resize {
        words: "relevant atoms past all bounds",
        sizes: Sizes {
            relevant: 4294967295,
            ..SIZES
        },
    },
    Resize {
        words: "one always true atom more",
        sizes: Sizes { always: 3, ..SIZES },
    },
    Resize {
        words: "no always true atoms",
        sizes: Sizes { always: 0, ..SIZES },
    },
    Resize {
        words: "1048577 actions",
        sizes: Sizes {
            actions: 1048577,
            ..SIZES
        },
    },
    Resize {
        words: "one action more",
        sizes: Sizes {
            actions: 5,
            ..SIZES
        },
    },
    Resize {
        words: "one action fewer",
        sizes: Sizes {
            actions: 3,
            ..SIZES
        },
    },
    Resize {
        words: "no actions",
        sizes: Sizes {
            actions: 0,
            ..SIZES
        },
    },
    Resize {
        words: "no entries",
        sizes: Sizes {
            entries: 0,
            ..SIZES
        },
    },
    Resize {
        words: "1048577 entries",
        sizes: Sizes {
            entries: 1048577,
            ..SIZES
        },
    },
    Resize {
        words: "one entry fewer",
        sizes: Sizes {
            entries: 49,
            ..SIZES
        },
    },
    Resize {
        words: "one entry more",
        sizes: Sizes {
            entries: 51,
            ..SIZES
        },
    },
];
