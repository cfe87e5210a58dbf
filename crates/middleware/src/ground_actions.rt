// The book of the middleware scenario: its ground actions, as a book table.
use crate::{COPY, HEADING, LOCK, MUTEX, PUBLISHER, READER, TIMEOUT, TRACK, UNLOCK, WRITE};
use book::Sizes;
use table::Kind;

// Facts: the relevant atoms, in their order.
const MUTEX_FREE: u32 = 0;

const PUBLISHER_HAS: u32 = 1;

const READER_HAS: u32 = 2;

const NEW_HEADING: u32 = 3;

const NEW_TRACK: u32 = 4;

const COPIED_HEADING: u32 = 5;

const COPIED_TRACK: u32 = 6;

const SHOWN_HEADING: u32 = 7;

const SHOWN_TRACK: u32 = 8;

pub const BOOK_ENTRIES: usize = 110;

pub const BOOK_SIZES: Sizes = Sizes {
    atoms: 45,
    relevant: 9,
    always: 0,
    actions: 9,
    entries: 110,
};

pub const BOOK_TABLE: [(Kind, u32); BOOK_ENTRIES] = [
    // the relevant atoms; only the mutex's being free starts true
    (Kind::StartsTrue, 2),
    (Kind::StartsFalse, 7),
    (Kind::StartsFalse, 12),
    (Kind::StartsFalse, 33),
    (Kind::StartsFalse, 34),
    (Kind::StartsFalse, 38),
    (Kind::StartsFalse, 39),
    (Kind::StartsFalse, 43),
    (Kind::StartsFalse, 44),
    // the goal
    (Kind::And, 3),
    (Kind::And, 2),
    (Kind::Fact, COPIED_HEADING),
    (Kind::Fact, COPIED_TRACK),
    (Kind::Fact, SHOWN_HEADING),
    (Kind::Not, 0),
    (Kind::Fact, SHOWN_TRACK),
    // lock, by the publisher and by the reader
    (Kind::Action, LOCK),
    (Kind::Object, PUBLISHER),
    (Kind::Object, MUTEX),
    (Kind::Fact, MUTEX_FREE),
    (Kind::And, 2),
    (Kind::Not, 0),
    (Kind::Fact, MUTEX_FREE),
    (Kind::Fact, PUBLISHER_HAS),
    (Kind::Action, LOCK),
    (Kind::Object, READER),
    (Kind::Object, MUTEX),
    (Kind::Fact, MUTEX_FREE),
    (Kind::And, 2),
    (Kind::Not, 0),
    (Kind::Fact, MUTEX_FREE),
    (Kind::Fact, READER_HAS),
    // unlock
    (Kind::Action, UNLOCK),
    (Kind::Object, PUBLISHER),
    (Kind::Object, MUTEX),
    (Kind::Fact, PUBLISHER_HAS),
    (Kind::And, 2),
    (Kind::Not, 0),
    (Kind::Fact, PUBLISHER_HAS),
    (Kind::Fact, MUTEX_FREE),
    (Kind::Action, UNLOCK),
    (Kind::Object, READER),
    (Kind::Object, MUTEX),
    (Kind::Fact, READER_HAS),
    (Kind::And, 2),
    (Kind::Not, 0),
    (Kind::Fact, READER_HAS),
    (Kind::Fact, MUTEX_FREE),
    // write, of the heading and of the track
    (Kind::Action, WRITE),
    (Kind::Object, PUBLISHER),
    (Kind::Object, MUTEX),
    (Kind::Object, HEADING),
    (Kind::And, 2),
    (Kind::Fact, PUBLISHER_HAS),
    (Kind::Not, 0),
    (Kind::Fact, NEW_HEADING),
    (Kind::And, 1),
    (Kind::Fact, NEW_HEADING),
    (Kind::Action, WRITE),
    (Kind::Object, PUBLISHER),
    (Kind::Object, MUTEX),
    (Kind::Object, TRACK),
    (Kind::And, 2),
    (Kind::Fact, PUBLISHER_HAS),
    (Kind::Not, 0),
    (Kind::Fact, NEW_TRACK),
    (Kind::And, 1),
    (Kind::Fact, NEW_TRACK),
    // timeout
    (Kind::Action, TIMEOUT),
    (Kind::Object, MUTEX),
    (Kind::Or, 2),
    (Kind::Fact, PUBLISHER_HAS),
    (Kind::Fact, READER_HAS),
    (Kind::And, 2),
    (Kind::When, 0),
    (Kind::Fact, PUBLISHER_HAS),
    (Kind::And, 1),
    (Kind::Fact, MUTEX_FREE),
    (Kind::When, 0),
    (Kind::Fact, READER_HAS),
    (Kind::And, 1),
    (Kind::Fact, MUTEX_FREE),
    // copy, of the heading and of the track
    (Kind::Action, COPY),
    (Kind::Object, READER),
    (Kind::Object, MUTEX),
    (Kind::Object, HEADING),
    (Kind::And, 2),
    (Kind::Fact, READER_HAS),
    (Kind::Not, 0),
    (Kind::Fact, COPIED_HEADING),
    (Kind::And, 2),
    (Kind::Fact, COPIED_HEADING),
    (Kind::When, 0),
    (Kind::Fact, NEW_HEADING),
    (Kind::And, 1),
    (Kind::Fact, SHOWN_HEADING),
    (Kind::Action, COPY),
    (Kind::Object, READER),
    (Kind::Object, MUTEX),
    (Kind::Object, TRACK),
    (Kind::And, 2),
    (Kind::Fact, READER_HAS),
    (Kind::Not, 0),
    (Kind::Fact, COPIED_TRACK),
    (Kind::And, 2),
    (Kind::Fact, COPIED_TRACK),
    (Kind::When, 0),
    (Kind::Fact, NEW_TRACK),
    (Kind::And, 1),
    (Kind::Fact, SHOWN_TRACK),
];
