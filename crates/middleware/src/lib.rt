// The middleware scenario as tables, and its story: a publisher and a reader share a message of two fields, heading and track, under one
// mutex.
#![tactic(auto)]

mod ground_actions;
mod story;
mod words;

use adl::Sizes;
pub use ground_actions::{BOOK_ENTRIES, BOOK_SIZES, BOOK_TABLE};
pub use story::STORY;
use table::Kind;
pub use words::InWords;

// Objects.
pub const PUBLISHER: u32 = 0;

pub const READER: u32 = 1;

pub const MUTEX: u32 = 2;

pub const HEADING: u32 = 3;

pub const TRACK: u32 = 4;

// Types, each a set of objects.
const PUBLISHERS: u32 = 0;

const READERS: u32 = 1;

const TASKS: u32 = 2;

const MUTEXES: u32 = 3;

const FIELDS: u32 = 4;

// Predicates: the mutex is free; a task holds the mutex; a field of the message is new; the reader has copied a field; the display
// shows the new value of a field.
const FREE: u32 = 0;

const HOLDS: u32 = 1;

const WRITTEN: u32 = 2;

const COPIED: u32 = 3;

const SHOWN: u32 = 4;

// Operators.
pub const LOCK: u32 = 0;

pub const UNLOCK: u32 = 1;

pub const WRITE: u32 = 2;

pub const TIMEOUT: u32 = 3;

pub const COPY: u32 = 4;

// Atoms, in the order of the predicates: one for each object or, of HOLDS, for each task and mutex.
pub const MUTEX_IS_FREE: u32 = 2;

pub const PUBLISHER_HOLDS: u32 = 5 + 2;

pub const READER_HOLDS: u32 = 5 + 5 + 2;

pub const HEADING_SHOWN: u32 = 40 + 3;

pub const TRACK_SHOWN: u32 = 40 + 4;

pub const ENTRIES: usize = 92;

pub const SIZES: Sizes = Sizes {
    objects: 5,
    types: 5,
    predicates: 5,
    facts: 1,
    operators: 5,
    entries: 92,
};

pub const TABLE: [(Kind, u32); ENTRIES] = [
    // types
    (Kind::TypeSet, 0b00001),
    (Kind::TypeSet, 0b00010),
    (Kind::TypeSet, 0b00011),
    (Kind::TypeSet, 0b00100),
    (Kind::TypeSet, 0b11000),
    // predicates
    (Kind::Predicate, 1),
    (Kind::Predicate, 2),
    (Kind::Predicate, 1),
    (Kind::Predicate, 1),
    (Kind::Predicate, 1),
    // at first the mutex is free
    (Kind::Atom, FREE),
    (Kind::Object, MUTEX),
    // the goal, which must never come about: both fields are copied, and the display shows the new heading with the old track
    (Kind::And, 3),
    (Kind::Forall, FIELDS),
    (Kind::Atom, COPIED),
    (Kind::Variable, 0),
    (Kind::Atom, SHOWN),
    (Kind::Object, HEADING),
    (Kind::Not, 0),
    (Kind::Atom, SHOWN),
    (Kind::Object, TRACK),
    // lock: a task takes the mutex if it is free
    (Kind::Operator, 2),
    (Kind::Parameter, TASKS),
    (Kind::Parameter, MUTEXES),
    (Kind::Atom, FREE),
    (Kind::Variable, 1),
    (Kind::And, 2),
    (Kind::Not, 0),
    (Kind::Atom, FREE),
    (Kind::Variable, 1),
    (Kind::Atom, HOLDS),
    (Kind::Variable, 0),
    (Kind::Variable, 1),
    // unlock: a task that holds the mutex gives it back
    (Kind::Operator, 2),
    (Kind::Parameter, TASKS),
    (Kind::Parameter, MUTEXES),
    (Kind::Atom, HOLDS),
    (Kind::Variable, 0),
    (Kind::Variable, 1),
    (Kind::And, 2),
    (Kind::Not, 0),
    (Kind::Atom, HOLDS),
    (Kind::Variable, 0),
    (Kind::Variable, 1),
    (Kind::Atom, FREE),
    (Kind::Variable, 1),
    // write: the publisher writes a field under the mutex
    (Kind::Operator, 3),
    (Kind::Parameter, PUBLISHERS),
    (Kind::Parameter, MUTEXES),
    (Kind::Parameter, FIELDS),
    (Kind::And, 2),
    (Kind::Atom, HOLDS),
    (Kind::Variable, 0),
    (Kind::Variable, 1),
    (Kind::Not, 0),
    (Kind::Atom, WRITTEN),
    (Kind::Variable, 2),
    (Kind::Atom, WRITTEN),
    (Kind::Variable, 2),
    // timeout: when a task holds the mutex, the handler sets it free, though that task goes on as if it held it
    (Kind::Operator, 1),
    (Kind::Parameter, MUTEXES),
    (Kind::Exists, TASKS),
    (Kind::Atom, HOLDS),
    (Kind::Variable, 1),
    (Kind::Variable, 0),
    (Kind::Forall, TASKS),
    (Kind::When, 0),
    (Kind::Atom, HOLDS),
    (Kind::Variable, 1),
    (Kind::Variable, 0),
    (Kind::Atom, FREE),
    (Kind::Variable, 0),
    // copy: the reader copies a field under the mutex; when the field is new, so is what the display shows
    (Kind::Operator, 3),
    (Kind::Parameter, READERS),
    (Kind::Parameter, MUTEXES),
    (Kind::Parameter, FIELDS),
    (Kind::And, 2),
    (Kind::Atom, HOLDS),
    (Kind::Variable, 0),
    (Kind::Variable, 1),
    (Kind::Not, 0),
    (Kind::Atom, COPIED),
    (Kind::Variable, 2),
    (Kind::And, 2),
    (Kind::Atom, COPIED),
    (Kind::Variable, 2),
    (Kind::When, 0),
    (Kind::Atom, WRITTEN),
    (Kind::Variable, 2),
    (Kind::And, 1),
    (Kind::Atom, SHOWN),
    (Kind::Variable, 2),
];
