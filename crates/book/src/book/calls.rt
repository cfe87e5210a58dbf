// Making and opening a book.
ghost use Rattle.std.specs.Prelude.{◌≡◌, MatchResult};
ghost use Rattle.book.specs.Opens.{given, opens, blank};
ghost use Rattle.book.specs.Held.{held, tree_of};

use super::Book;
use crate::book_table::BookTable;
use crate::opening::check_entries;
use crate::sizes::Sizes;
use fault::Fault;
use table::Entries;

impl<'a> Book<'a> {
    // A record that holds one entry, TRUE, and no atoms.
    pub fn new() -> Book<'a>
        ensures { tree_of result ≡ blank }
    {
        let sizes = Sizes {
            atoms: 0,
            relevant: 0,
            always: 0,
            actions: 0,
            entries: 1,
        };
        let entries = Entries {
            count: 1,
            // TRUE, by its code: a constant that is lent for as long as the record lasts
            kinds: &[0],
            operands: &[0],
        };
        Book {
            table: BookTable { sizes, entries },
            actions_at: 1,
        }
    }

    // Fills the record with the book that stands in the arrays; a refusal leaves it as it was.
    pub fn open(&mut self, sizes: Sizes, kinds: &'a [u8], operands: &'a [u32]) -> Result<(), Fault>
        ensures answers { result ≡ opens sizes kinds.now operands.now }
        ensures fills { MatchResult result (λ _. held self.new ≡ given sizes kinds.now operands.now) (λ _. self.new ≡ self.old) }
    {
        let table = BookTable::new(sizes, kinds, operands)?;
        let actions_at = check_entries(&table)?;
        *self = Book { table, actions_at };
        Ok(())
    }
}
