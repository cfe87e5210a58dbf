// A task with 32 objects and one predicate of three arguments: a step takes a triple and puts it back turned round.
use adl::Sizes;
use protocol::Name;
use table::Kind;

const ENTRIES: usize = 25;

pub const SIZES: Sizes = Sizes {
    objects: 32,
    types: 1,
    predicates: 1,
    facts: 1,
    operators: 1,
    entries: 25,
};

pub const TABLE: [(Kind, u32); ENTRIES] = [
    // a type with all objects
    (Kind::TypeSet, 0xffff_ffff),
    (Kind::Predicate, 3),
    // the fact
    (Kind::Atom, 0),
    (Kind::Object, 1),
    (Kind::Object, 2),
    (Kind::Object, 3),
    // the goal
    (Kind::False, 0),
    // the operator
    (Kind::Operator, 3),
    (Kind::Parameter, 0),
    (Kind::Parameter, 0),
    (Kind::Parameter, 0),
    (Kind::Atom, 0),
    (Kind::Variable, 0),
    (Kind::Variable, 1),
    (Kind::Variable, 2),
    (Kind::And, 2),
    (Kind::Not, 0),
    (Kind::Atom, 0),
    (Kind::Variable, 0),
    (Kind::Variable, 1),
    (Kind::Variable, 2),
    (Kind::Atom, 0),
    (Kind::Variable, 1),
    (Kind::Variable, 2),
    (Kind::Variable, 0),
];

// The triple goes round once.
pub const TURNING: [Name; 3] = [
    Name {
        operator: 0,
        objects: &[1, 2, 3],
    },
    Name {
        operator: 0,
        objects: &[2, 3, 1],
    },
    Name {
        operator: 0,
        objects: &[3, 1, 2],
    },
];
