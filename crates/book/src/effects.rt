// Checking the effects of actions.
ghost use Rattle.std.specs.Prelude.{◌≡◌, ◌+◌, ◌-◌, ◌≤◌};
ghost use Rattle.book.specs.Reads.{literal_by, literal, literals, clause, effect};
ghost use Rattle.table.specs.Entries.{coded};
ghost use Rattle.book.specs.Views.{table as table_in, answer};

use crate::book_table::BookTable;
use crate::check::check_ground;
use crate::head::head_at;
use fault::{Cause, Fault, Layer};
use table::{Head, Kind, Place};

// What follows the first entry of a literal.
fn check_literal_by(table: &BookTable, levels: u32, head: Head, next: usize) -> Result<usize, Fault>
    requires { next ≤ table.now.sizes.entries }
    ensures { result ≡ answer (literal_by (table_in table.now) levels (coded head) next) }
{
    match head.kind {
        Kind::Not => {
            let _ = head_at(table, Place::NegatedFact, levels, next)?;
            Ok(next + 1)
        }
        _ => Ok(next),
    }
}

// A literal of a WHEN.
fn check_literal(table: &BookTable, at: usize) -> Result<usize, Fault>
    ensures { result ≡ answer (literal (table_in table.now) at) }
{
    let head = head_at(table, Place::Literal, 510, at)?;
    check_literal_by(table, 509, head, at + 1)
}

// The literals of a WHEN, of which there is at least one.
fn check_literals(table: &BookTable, at: usize) -> Result<usize, Fault>
    ensures { result ≡ answer (literals (table_in table.now) at) }
{
    let head = head_at(table, Place::Literals, 511, at)?;
    if head.operand == 0 {
        return Err(Fault::new(Cause::OperandOutOfRange, Layer::Book, at as u64));
    }
    let mut next = at + 1;
    // a loop, as in `check_ground`, where a fold is no plainer
    for _ in 0..head.operand {
        next = check_literal(table, next)?;
    }
    Ok(next)
}

// A part of an effect: a literal, or a WHEN with its formula and its literals.
fn check_clause(table: &BookTable, at: usize) -> Result<usize, Fault>
    ensures { result ≡ answer (clause (table_in table.now) at) }
{
    let head = head_at(table, Place::Clause, 512, at)?;
    match head.kind {
        Kind::When => {
            let literals = check_ground(table, 511, at + 1)?;
            check_literals(table, literals)
        }
        _ => check_literal_by(table, 511, head, at + 1),
    }
}

// The effect of an action.
pub(crate) fn check_effect(table: &BookTable, at: usize) -> Result<usize, Fault>
    ensures { result ≡ answer (effect (table_in table.now) at) }
{
    let head = head_at(table, Place::Clauses, 513, at)?;
    let mut next = at + 1;
    // a loop, as in `check_ground`, where a fold is no plainer
    for _ in 0..head.operand {
        next = check_clause(table, next)?;
    }
    Ok(next)
}
