// Walking over the actions of a book.
ghost use Rattle.std.specs.Prelude.{◌≡◌, ◌+◌, ◌<◌, ◌≤◌};
ghost use Rattle.protocol.specs.Names.{name_of};
ghost use Rattle.book.specs.Named.{name_in, SomeAction, name_end, SomeBody, body_end};
ghost use Rattle.book.specs.Views.{table as table_in};

use crate::book_table::BookTable;
use crate::check::check_ground;
use crate::effects::check_effect;
use crate::names::check_objects;
use protocol::Name;

// The place after the name of the action at place `at`.
pub(crate) fn end_of_name(table: &BookTable, at: usize) -> usize
    requires { SomeAction (table_in table.now) at }
    ensures { result ≡ name_end (table_in table.now) at }
{
    check_objects(table, 4, at + 1).unwrap()
}

// The name from place `at` to place `end`.
pub(crate) fn name_at<'a>(table: &BookTable<'a>, at: usize, end: usize) -> Name<'a>
    requires { (at < end) × (end ≤ table.now.sizes.entries) }
    ensures { name_of result ≡ name_in table.now.entries.operands.now at end }
{
    Name {
        operator: table.entries.operands[at],
        objects: &table.entries.operands[at + 1..end],
    }
}

// The place after the precondition and the effect that stand from place `at` on.
pub(crate) fn end_of_body(table: &BookTable, at: usize) -> usize
    requires { SomeBody (table_in table.now) at }
    ensures { result ≡ body_end (table_in table.now) at }
{
    let effect = check_ground(table, 513, at).unwrap();
    check_effect(table, effect).unwrap()
}
