// A well-formed book, borrowed from the caller's arrays, with the place where its actions begin.
ghost use Rattle.std.specs.Prelude.{◌≡◌, true};
ghost use Rattle.book.specs.Reads.{actions_place};
ghost use Rattle.book.specs.Opens.{accepted};
ghost use Rattle.book.specs.Views.{table as table_in};

use crate::book_table::BookTable;

#[derive(Clone, Copy)]
pub struct Book<'a> {
    pub table: BookTable<'a>,
    // where the actions begin
    pub actions_at: usize,
    ghost formed: { accepted (table_in table) ≡ true },
    ghost placed: { actions_at ≡ actions_place (table_in table) },
}

pub mod calls;
pub mod finding;
