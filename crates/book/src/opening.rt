// Checking the entries of a book.
ghost use Rattle.std.specs.Prelude.{◌≡◌, ◌≤◌, IfOk};
ghost use Rattle.fault.specs.declared.Layer.TheVariants as layer;
ghost use Rattle.table.specs.Answers.{done, whether};
ghost use Rattle.book.specs.Reads.{book};
ghost use Rattle.book.specs.Records.{Placed};
ghost use Rattle.book.specs.Views.{table as table_in};

use crate::book_table::BookTable;
use crate::check::check_ground;
use crate::groups::{check_always, check_relevant};
use crate::names::check_actions;
use fault::{Cause, Fault, Layer};

// The entries, first to last: where the actions begin, or the first fault.
pub(crate) fn check_entries(table: &BookTable) -> Result<usize, Fault>
    ensures same { whether result ≡ done layer.Book (book (table_in table.now)) }
    ensures placed { IfOk result (Placed (table_in table.now)) }
{
    let always_at = check_relevant(table)?;
    let goal_at = check_always(table, always_at)?;
    let actions_at = check_ground(table, 513, goal_at)?;
    let end = check_actions(table, actions_at)?;
    if end < table.sizes.entries as usize {
        return Err(Fault::new(Cause::EntriesMismatch, Layer::Book, end as u64));
    }
    Ok(actions_at)
}
