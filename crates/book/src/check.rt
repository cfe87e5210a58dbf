// Checking the formulas of a book table: the place after each, or its first fault.
ghost use Rattle.std.specs.Prelude.{◌≡◌, ◌+◌, ◌-◌};
ghost use Rattle.book.specs.Reads.{ground};
ghost use Rattle.book.specs.Views.{table as table_in, answer};

use crate::book_table::BookTable;
use crate::head::head_at;
use fault::Fault;
use table::{Kind, Place};

// The formula at place `at`, where so many levels are left.
// Each check answers with a place: it is passed beside the table, since a cursor of both would be taken apart at each; the
// levels change at each call.
pub(crate) fn check_ground(table: &BookTable, levels: u32, at: usize) -> Result<usize, Fault>
    ensures { result ≡ answer (ground (table_in table.now) levels at) }
{
    let head = head_at(table, Place::Ground, levels, at)?;
    let mut next = at + 1;
    match head.kind {
        Kind::Not => check_ground(table, levels - 1, next),
        Kind::And | Kind::Or => {
            // a fold's closure would stand in the cycle of calls, and want a contract and a measure of its own
            for _ in 0..head.operand {
                next = check_ground(table, levels - 1, next)?;
            }
            Ok(next)
        }
        _ => Ok(next),
    }
}
