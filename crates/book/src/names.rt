// Checking the names of actions, and the actions.
ghost use Rattle.std.specs.Prelude.{◌≡◌, ◌+◌, ◌-◌, ◌<◌, ◌≤◌, [], length, IfOk};
ghost use Rattle.std.specs.List.{between};
ghost use Rattle.table.specs.Reading.{good};
ghost use Rattle.book.specs.Reads.{objects, precedes as comes_before, name, actions_in};
ghost use Rattle.book.specs.Named.{name_in};
ghost use Rattle.book.specs.Views.{table as table_in, answer};

use crate::book_table::BookTable;
use crate::check::check_ground;
use crate::effects::check_effect;
use crate::head::head_at;
use fault::{Cause, Fault, Layer};
use table::{Kind, Place};

// The objects from place `at`, of which `room` more may come: the place after them. A recursion as the definition is one: the room ends, or the
// objects do.
pub(crate) fn check_objects(table: &BookTable, room: u32, at: usize) -> Result<usize, Fault>
    ensures { result ≡ answer (objects (table_in table.now) room at) }
{
    if at >= table.sizes.entries as usize {
        return Ok(at);
    }
    if table.entries.kinds[at] != Kind::Object as u8 {
        return Ok(at);
    }
    if room == 0 || table.entries.operands[at] >= 32 {
        return Err(Fault::new(Cause::OperandOutOfRange, Layer::Book, at as u64));
    }
    check_objects(table, room - 1, at + 1)
}

// Whether the list `a` comes before the list `b`: from the left, and before any longer one that it begins. A function of its own, which names the
// lemma on that order.
#[tactic(auto, using(crate::proofs::Order::less_precedes))]
fn precedes(a: &[u32], b: &[u32]) -> bool
    ensures { result ≡ comes_before a.now b.now }
{
    a < b
}

// The name of the action at place `at`, which comes after the name `before`: the place after it.
fn check_name(table: &BookTable, before: &[u32], at: usize) -> Result<usize, Fault>
    ensures same { result ≡ answer (name (table_in table.now) before.now at) }
    ensures inside { IfOk result (λ j. (at < j) × (j ≤ table.now.sizes.entries)) }
    ensures text { IfOk result (λ j. name (table_in table.now) before.now at ≡ good (name_in table.now.entries.operands.now at j) j) }
{
    let _ = head_at(table, Place::Action, 513, at)?;
    let end = check_objects(table, 4, at + 1)?;
    if !precedes(before, &table.entries.operands[at..end]) {
        return Err(Fault::new(Cause::NotRising, Layer::Book, end as u64 - 1));
    }
    Ok(end)
}

// All actions, from place `from`.
pub(crate) fn check_actions(table: &BookTable, from: usize) -> Result<usize, Fault>
    ensures { result ≡ answer (actions_in (table_in table.now) from) }
{
    let mut at = from;
    let mut before: &[u32] = &[];
    // a fold would carry both variables as a pair, and is no plainer
    for _ in 0..table.sizes.actions {
        let named = check_name(table, before, at)?;
        before = &table.entries.operands[at..named];
        let judged = check_ground(table, 513, named)?;
        at = check_effect(table, judged)?;
    }
    Ok(at)
}
