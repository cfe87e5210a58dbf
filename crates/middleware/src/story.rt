// The story of the scenario: its calls, each with the words that tell it.
use crate::{
    COPY, HEADING, HEADING_SHOWN, LOCK, MUTEX, MUTEX_IS_FREE, PUBLISHER, PUBLISHER_HOLDS, READER,
    READER_HOLDS, TIMEOUT, TRACK, TRACK_SHOWN, WRITE,
};
use protocol::{Call, Name};

type Line = (&'static str, Call<'static>);

// What is asked after each step.
const IS_FREE: Line = ("    the mutex is free", Call::Holds(MUTEX_IS_FREE));

const PUBLISHER_HAS_IT: Line = (
    "    the publisher holds the mutex",
    Call::Holds(PUBLISHER_HOLDS),
);

const READER_HAS_IT: Line = ("    the reader holds the mutex", Call::Holds(READER_HOLDS));

const SHOWS_HEADING: Line = (
    "    the display shows the new heading",
    Call::Holds(HEADING_SHOWN),
);

const SHOWS_TRACK: Line = (
    "    the display shows the new track",
    Call::Holds(TRACK_SHOWN),
);

pub const STORY: [Line; 45] = [
    ("the run begins", Call::Begin),
    (
        "the publisher locks the mutex",
        Call::Perform(Name {
            operator: LOCK,
            objects: &[PUBLISHER, MUTEX],
        }),
    ),
    IS_FREE,
    PUBLISHER_HAS_IT,
    READER_HAS_IT,
    SHOWS_HEADING,
    SHOWS_TRACK,
    (
        "the publisher writes the heading",
        Call::Perform(Name {
            operator: WRITE,
            objects: &[PUBLISHER, MUTEX, HEADING],
        }),
    ),
    IS_FREE,
    PUBLISHER_HAS_IT,
    READER_HAS_IT,
    SHOWS_HEADING,
    SHOWS_TRACK,
    (
        "the reader locks the mutex",
        Call::Perform(Name {
            operator: LOCK,
            objects: &[READER, MUTEX],
        }),
    ),
    IS_FREE,
    PUBLISHER_HAS_IT,
    READER_HAS_IT,
    SHOWS_HEADING,
    SHOWS_TRACK,
    (
        "the timeout handler fires",
        Call::Perform(Name {
            operator: TIMEOUT,
            objects: &[MUTEX],
        }),
    ),
    IS_FREE,
    PUBLISHER_HAS_IT,
    READER_HAS_IT,
    SHOWS_HEADING,
    SHOWS_TRACK,
    (
        "the reader locks the mutex",
        Call::Perform(Name {
            operator: LOCK,
            objects: &[READER, MUTEX],
        }),
    ),
    IS_FREE,
    PUBLISHER_HAS_IT,
    READER_HAS_IT,
    SHOWS_HEADING,
    SHOWS_TRACK,
    (
        "the reader copies the heading",
        Call::Perform(Name {
            operator: COPY,
            objects: &[READER, MUTEX, HEADING],
        }),
    ),
    IS_FREE,
    PUBLISHER_HAS_IT,
    READER_HAS_IT,
    SHOWS_HEADING,
    SHOWS_TRACK,
    (
        "the reader copies the track",
        Call::Perform(Name {
            operator: COPY,
            objects: &[READER, MUTEX, TRACK],
        }),
    ),
    IS_FREE,
    PUBLISHER_HAS_IT,
    READER_HAS_IT,
    SHOWS_HEADING,
    SHOWS_TRACK,
    ("the bad state has come about", Call::Goal),
    ("the run ends", Call::End),
];
