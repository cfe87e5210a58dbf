// Lists of calls on the middleware's task and its book, each call with the words that tell it.
use middleware::{
    COPY, HEADING, LOCK, MUTEX, MUTEX_IS_FREE, PUBLISHER, PUBLISHER_HOLDS, READER, READER_HOLDS,
    TIMEOUT, TRACK, TRACK_SHOWN, UNLOCK, WRITE,
};
use protocol::{Call, Name};

type Line = (&'static str, Call<'static>);

// A begin during a run, one after an end, and a goal that is asked at once.
pub const BEGINS: [Line; 12] = [
    ("the run begins", Call::Begin),
    (
        "the publisher locks the mutex",
        Call::Perform(Name {
            operator: LOCK,
            objects: &[PUBLISHER, MUTEX],
        }),
    ),
    (
        "the publisher holds the mutex",
        Call::Holds(PUBLISHER_HOLDS),
    ),
    ("the run begins again", Call::Begin),
    (
        "the publisher holds the mutex",
        Call::Holds(PUBLISHER_HOLDS),
    ),
    ("the mutex is free", Call::Holds(MUTEX_IS_FREE)),
    (
        "the reader locks the mutex",
        Call::Perform(Name {
            operator: LOCK,
            objects: &[READER, MUTEX],
        }),
    ),
    ("the run ends", Call::End),
    ("another run begins", Call::Begin),
    ("the reader holds the mutex", Call::Holds(READER_HOLDS)),
    ("the bad state has come about", Call::Goal),
    ("that run ends", Call::End),
];

// Names that do not fit, and names whose precondition is false.
pub const NAMES: [Line; 20] = [
    ("the run begins", Call::Begin),
    (
        "the publisher locks the mutex",
        Call::Perform(Name {
            operator: LOCK,
            objects: &[PUBLISHER, MUTEX],
        }),
    ),
    (
        "an operator past the last",
        Call::Perform(Name {
            operator: 5,
            objects: &[PUBLISHER, MUTEX],
        }),
    ),
    (
        "the largest number as operator",
        Call::Perform(Name {
            operator: u32::MAX,
            objects: &[PUBLISHER, MUTEX],
        }),
    ),
    (
        "a timeout of no object",
        Call::Perform(Name {
            operator: TIMEOUT,
            objects: &[],
        }),
    ),
    (
        "a lock of one object",
        Call::Perform(Name {
            operator: LOCK,
            objects: &[READER],
        }),
    ),
    (
        "a lock of three objects",
        Call::Perform(Name {
            operator: LOCK,
            objects: &[READER, MUTEX, HEADING],
        }),
    ),
    (
        "a lock of five objects",
        Call::Perform(Name {
            operator: LOCK,
            objects: &[READER, MUTEX, HEADING, TRACK, PUBLISHER],
        }),
    ),
    (
        "a field locks the mutex",
        Call::Perform(Name {
            operator: LOCK,
            objects: &[HEADING, MUTEX],
        }),
    ),
    (
        "the reader writes the heading",
        Call::Perform(Name {
            operator: WRITE,
            objects: &[READER, MUTEX, HEADING],
        }),
    ),
    (
        "the mutex unlocks itself",
        Call::Perform(Name {
            operator: UNLOCK,
            objects: &[MUTEX, MUTEX],
        }),
    ),
    (
        "an object that is not there locks",
        Call::Perform(Name {
            operator: LOCK,
            objects: &[5, MUTEX],
        }),
    ),
    (
        "the largest number as object",
        Call::Perform(Name {
            operator: LOCK,
            objects: &[u32::MAX, MUTEX],
        }),
    ),
    (
        "the reader locks the mutex",
        Call::Perform(Name {
            operator: LOCK,
            objects: &[READER, MUTEX],
        }),
    ),
    (
        "the reader unlocks the mutex",
        Call::Perform(Name {
            operator: UNLOCK,
            objects: &[READER, MUTEX],
        }),
    ),
    (
        "the reader copies the track",
        Call::Perform(Name {
            operator: COPY,
            objects: &[READER, MUTEX, TRACK],
        }),
    ),
    (
        "the publisher unlocks the mutex",
        Call::Perform(Name {
            operator: UNLOCK,
            objects: &[PUBLISHER, MUTEX],
        }),
    ),
    (
        "the timeout handler fires",
        Call::Perform(Name {
            operator: TIMEOUT,
            objects: &[MUTEX],
        }),
    ),
    ("the mutex is free", Call::Holds(MUTEX_IS_FREE)),
    ("the run ends", Call::End),
];

// Atoms, the last and one that is never true among them, and numbers past them.
pub const NUMBERS: [Line; 8] = [
    ("the run begins", Call::Begin),
    ("the mutex is free", Call::Holds(MUTEX_IS_FREE)),
    ("the publisher is free", Call::Holds(PUBLISHER)),
    ("the display shows the new track", Call::Holds(TRACK_SHOWN)),
    (
        "the number after the last atom",
        Call::Holds(TRACK_SHOWN + 1),
    ),
    ("the largest number", Call::Holds(u32::MAX)),
    ("the bad state has come about", Call::Goal),
    ("the run ends", Call::End),
];

// Calls before the first begin and after an end.
pub const NO_RUN: [Line; 16] = [
    (
        "the publisher locks the mutex",
        Call::Perform(Name {
            operator: LOCK,
            objects: &[PUBLISHER, MUTEX],
        }),
    ),
    ("the mutex is free", Call::Holds(MUTEX_IS_FREE)),
    (
        "the number after the last atom",
        Call::Holds(TRACK_SHOWN + 1),
    ),
    ("the bad state has come about", Call::Goal),
    ("no run ends", Call::End),
    ("the run begins", Call::Begin),
    (
        "the publisher locks the mutex",
        Call::Perform(Name {
            operator: LOCK,
            objects: &[PUBLISHER, MUTEX],
        }),
    ),
    ("the run ends", Call::End),
    (
        "the reader locks the mutex",
        Call::Perform(Name {
            operator: LOCK,
            objects: &[READER, MUTEX],
        }),
    ),
    (
        "a lock of one object",
        Call::Perform(Name {
            operator: LOCK,
            objects: &[READER],
        }),
    ),
    (
        "the publisher holds the mutex",
        Call::Holds(PUBLISHER_HOLDS),
    ),
    ("the bad state has come about", Call::Goal),
    ("no run ends", Call::End),
    ("another run begins", Call::Begin),
    (
        "the publisher holds the mutex",
        Call::Holds(PUBLISHER_HOLDS),
    ),
    ("that run ends", Call::End),
];

// For stores, images and answers that are too short.
pub const SHORT: [Line; 5] = [
    ("the run begins", Call::Begin),
    (
        "the publisher locks the mutex",
        Call::Perform(Name {
            operator: LOCK,
            objects: &[PUBLISHER, MUTEX],
        }),
    ),
    (
        "the publisher holds the mutex",
        Call::Holds(PUBLISHER_HOLDS),
    ),
    ("the bad state has come about", Call::Goal),
    ("the run ends", Call::End),
];
