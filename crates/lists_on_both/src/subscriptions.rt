// A task with an atom that is always true, and its book: a display is subscribed to a topic and a logger is not; whoever has received a
// message can forward it.
use adl::Sizes;
use protocol::{Call, Name};
use table::Kind;

// Objects.
const DISPLAY: u32 = 0;

const LOGGER: u32 = 1;

const TOPIC: u32 = 2;

// Types.
const READERS: u32 = 0;

const TOPICS: u32 = 1;

// Predicates: a reader is subscribed to a topic; a reader has received the message.
const SUBSCRIBED: u32 = 0;

const RECEIVED: u32 = 1;

// Operators.
const DELIVER: u32 = 0;

const PUBLISH: u32 = 1;

const FORWARD: u32 = 2;

// Atoms.
const DISPLAY_SUBSCRIBED: u32 = 2;

const LOGGER_SUBSCRIBED: u32 = 3 + 2;

const DISPLAY_RECEIVED: u32 = 9;

const LOGGER_RECEIVED: u32 = 9 + 1;

pub const ENTRIES: usize = 39;

pub const SIZES: Sizes = Sizes {
    objects: 3,
    types: 2,
    predicates: 2,
    facts: 1,
    operators: 3,
    entries: 39,
};

pub const TABLE: [(Kind, u32); ENTRIES] = [
    // types
    (Kind::TypeSet, 0b011),
    (Kind::TypeSet, 0b100),
    // predicates
    (Kind::Predicate, 2),
    (Kind::Predicate, 1),
    // the display is subscribed
    (Kind::Atom, SUBSCRIBED),
    (Kind::Object, DISPLAY),
    (Kind::Object, TOPIC),
    // the goal: every subscriber has received the message
    (Kind::Forall, READERS),
    (Kind::Imply, 0),
    (Kind::Atom, SUBSCRIBED),
    (Kind::Variable, 0),
    (Kind::Object, TOPIC),
    (Kind::Atom, RECEIVED),
    (Kind::Variable, 0),
    // deliver: a subscriber receives the message
    (Kind::Operator, 2),
    (Kind::Parameter, READERS),
    (Kind::Parameter, TOPICS),
    (Kind::Atom, SUBSCRIBED),
    (Kind::Variable, 0),
    (Kind::Variable, 1),
    (Kind::Atom, RECEIVED),
    (Kind::Variable, 0),
    // publish: every subscriber receives it
    (Kind::Operator, 1),
    (Kind::Parameter, TOPICS),
    (Kind::True, 0),
    (Kind::Forall, READERS),
    (Kind::When, 0),
    (Kind::Atom, SUBSCRIBED),
    (Kind::Variable, 1),
    (Kind::Variable, 0),
    (Kind::Atom, RECEIVED),
    (Kind::Variable, 1),
    // forward: a reader that has received the message hands it to another
    (Kind::Operator, 2),
    (Kind::Parameter, READERS),
    (Kind::Parameter, READERS),
    (Kind::Atom, RECEIVED),
    (Kind::Variable, 0),
    (Kind::Atom, RECEIVED),
    (Kind::Variable, 1),
];

// Facts of the book: the relevant atoms.
const DISPLAY_HAS_IT: u32 = 0;

const LOGGER_HAS_IT: u32 = 1;

pub const BOOK_ENTRIES: usize = 27;

pub const BOOK_SIZES: book::Sizes = book::Sizes {
    atoms: 12,
    relevant: 2,
    always: 1,
    actions: 4,
    entries: 27,
};

pub const BOOK_TABLE: [(Kind, u32); BOOK_ENTRIES] = [
    // the relevant atoms, and the one that is always true
    (Kind::StartsFalse, DISPLAY_RECEIVED),
    (Kind::StartsFalse, LOGGER_RECEIVED),
    (Kind::Always, DISPLAY_SUBSCRIBED),
    // the goal
    (Kind::Fact, DISPLAY_HAS_IT),
    // deliver, to the display
    (Kind::Action, DELIVER),
    (Kind::Object, DISPLAY),
    (Kind::Object, TOPIC),
    (Kind::True, 0),
    (Kind::And, 1),
    (Kind::Fact, DISPLAY_HAS_IT),
    // publish
    (Kind::Action, PUBLISH),
    (Kind::Object, TOPIC),
    (Kind::True, 0),
    (Kind::And, 1),
    (Kind::Fact, DISPLAY_HAS_IT),
    // forward, by the display and by the logger
    (Kind::Action, FORWARD),
    (Kind::Object, DISPLAY),
    (Kind::Object, LOGGER),
    (Kind::Fact, DISPLAY_HAS_IT),
    (Kind::And, 1),
    (Kind::Fact, LOGGER_HAS_IT),
    (Kind::Action, FORWARD),
    (Kind::Object, LOGGER),
    (Kind::Object, DISPLAY),
    (Kind::Fact, LOGGER_HAS_IT),
    (Kind::And, 1),
    (Kind::Fact, DISPLAY_HAS_IT),
];

type Line = (&'static str, Call<'static>);

// Asks for an atom that is always true and for one that is never true, and names that repeat an object.
pub const SUBSCRIPTIONS: [Line; 17] = [
    ("the run begins", Call::Begin),
    ("the display is subscribed", Call::Holds(DISPLAY_SUBSCRIBED)),
    ("the logger is subscribed", Call::Holds(LOGGER_SUBSCRIBED)),
    ("every subscriber has it", Call::Goal),
    (
        "the logger gets it by subscription",
        Call::Perform(Name {
            operator: DELIVER,
            objects: &[LOGGER, TOPIC],
        }),
    ),
    (
        "the display forwards it to the logger",
        Call::Perform(Name {
            operator: FORWARD,
            objects: &[DISPLAY, LOGGER],
        }),
    ),
    (
        "the topic is published",
        Call::Perform(Name {
            operator: PUBLISH,
            objects: &[TOPIC],
        }),
    ),
    ("the display has it", Call::Holds(DISPLAY_RECEIVED)),
    ("the logger has it", Call::Holds(LOGGER_RECEIVED)),
    ("every subscriber has it", Call::Goal),
    (
        "the display forwards it to itself",
        Call::Perform(Name {
            operator: FORWARD,
            objects: &[DISPLAY, DISPLAY],
        }),
    ),
    (
        "the display forwards it to the logger",
        Call::Perform(Name {
            operator: FORWARD,
            objects: &[DISPLAY, LOGGER],
        }),
    ),
    ("the logger has it", Call::Holds(LOGGER_RECEIVED)),
    ("the display is subscribed", Call::Holds(DISPLAY_SUBSCRIBED)),
    ("the logger is subscribed", Call::Holds(LOGGER_SUBSCRIBED)),
    ("the number after the last atom", Call::Holds(12)),
    ("the run ends", Call::End),
];
