// One entry of a book table: what may stand at its place.
ghost use Rattle.std.specs.Prelude.{◌≡◌, ◌<◌, OnOk};
ghost use Rattle.table.specs.Entries.{coded, all_coded};
ghost use Rattle.book.specs.Tables.{in_range, head};
ghost use Rattle.book.specs.Views.{table as table_in, heading};

use crate::book_table::BookTable;
use fault::{Cause, Fault, Layer};
use table::{Head, Kind, Place};

// Whether the operand is in the range of its kind.
fn is_in_range(table: &BookTable, head: Head) -> bool
    ensures { result ≡ in_range (table_in table.now) (coded head) }
{
    let operand = head.operand;
    match head.kind {
        Kind::And | Kind::Or => true,
        Kind::Fact => operand < table.sizes.relevant,
        Kind::Action => operand < 32,
        Kind::StartsTrue | Kind::StartsFalse | Kind::Always => operand < table.sizes.atoms,
        _ => operand == 0,
    }
}

// The entry at place `at`, where so many levels are left, or its first fault.
pub(crate) fn head_at(
    table: &BookTable,
    place: Place,
    levels: u32,
    at: usize,
) -> Result<Head, Fault>
    ensures same { all_coded result ≡ heading (head (table_in table.now) place levels at) }
    ensures inside { OnOk result (at < table.now.sizes.entries) }
    ensures room { OnOk result (0 < levels) }
{
    let head = table.entries.head_at(Layer::Book, place, at)?;
    if levels == 0 {
        return Err(Fault::new(Cause::TooLongOrDeep, Layer::Book, at as u64));
    }
    if !is_in_range(table, head) {
        return Err(Fault::new(Cause::OperandOutOfRange, Layer::Book, at as u64));
    }
    Ok(head)
}
