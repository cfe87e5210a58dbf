// The names of the scenario's actions in words.
ghost use Rattle.std.specs.Prelude.{◌≡◌, Some, slice_index_or};
ghost use Rattle.middleware.specs.Words.{object_text, deed_text, name_text};

use crate::{COPY, HEADING, LOCK, MUTEX, PUBLISHER, READER, TIMEOUT, TRACK, UNLOCK, WRITE};
use protocol::Name;
use std::fmt;

// A name, told in the words of the story.
#[derive(Clone, Copy)]
pub struct InWords<'n>(pub Name<'n>);

fn object_in_words(object: u32) -> &'static str
    ensures { result.now ≡ object_text object }
{
    match object {
        PUBLISHER => "the publisher",
        READER => "the reader",
        MUTEX => "the mutex",
        HEADING => "the heading",
        TRACK => "the track",
        _ => "something else",
    }
}

fn object_at(objects: &[u32], place: usize) -> &'static str
    ensures { result.now ≡ object_text (slice_index_or objects.now place 5) }
{
    match objects.get(place) {
        Some(object) => object_in_words(*object),
        None => "something else",
    }
}

fn deed_in_words(operator: u32) -> &'static str
    ensures { result.now ≡ deed_text operator }
{
    match operator {
        LOCK => "locks",
        UNLOCK => "unlocks",
        WRITE => "writes",
        COPY => "copies",
        _ => "does something with",
    }
}

// As in `the reader copies the heading`: what the first object does with the last.
impl fmt::Display for InWords<'_> {
    ghost output = { λ words. Some (name_text words.0.operator words.0.objects.now) };

    fn fmt<W: fmt::Write>(&self, f: &mut fmt::Formatter<W>) -> fmt::Result {
        let Name { operator, objects } = self.0;
        if operator == TIMEOUT {
            return f.write_str("the timeout handler fires");
        }
        let first = object_at(objects, 0);
        let deed = deed_in_words(operator);
        let last = object_at(objects, objects.len().saturating_sub(1));
        write!(f, "{first} {deed} {last}")
    }
}
