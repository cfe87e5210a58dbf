// The names of actions.
ghost use Rattle.std.specs.Prelude.{◌≡◌, ℕ, ◌+◌, ◌<◌, ◌≤◌, true};
ghost use Rattle.table.specs.Answers.{is_good};
ghost use Rattle.table.specs.Reading.{next_place};
ghost use Rattle.book.specs.Reads.{is_object, objects};
ghost use Rattle.book.specs.Views.{table as table_in};

use crate::entries::is_kind;
use book::BookTable;
use table::Kind;

// Whether an object stands at place `at`.
fn is_object_at(table: &BookTable, at: usize) -> bool
    ensures { result ≡ is_object (table_in table.now) at }
{
    at < table.sizes.entries as usize && is_kind(table, at, Kind::Object)
}

// The place after the objects of a name, which stand from place `at` on. The like of crate `book` asks that an action stands there, and so cannot be
// public. The count of places is the answer.
pub(crate) fn after_objects(table: &BookTable, at: usize) -> usize
    requires { is_good (objects (table_in table.now) 4 at) ≡ true }
    ensures { result ≡ next_place (objects (table_in table.now) 4 at) }
{
    let mut next = at;
    while is_object_at(table, next) {
        next += 1;
    }
    next
}
