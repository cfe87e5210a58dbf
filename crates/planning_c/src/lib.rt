// The calls for C: from the file of a task to the file of its book, checking both, and the line of a refusal.
// They take numbers and slices of bytes, and answer numbers. include/planning_c.h declares them.
#![tactic(auto)]

mod line;
mod outcome;
mod places;

ghost use Rattle.std.specs.Prelude.{◌≡◌, ◌<◌, ◌≤◌, ◌⊎◌, length, take};
ghost use Rattle.instantiate.specs.Growing.{over};
ghost use Rattle.instantiate.specs.Refusals.{no_memory};
ghost use Rattle.model.specs.Books.{book as book_in};
ghost use Rattle.files.specs.Converting.{HoldsBook, task_in_file, book_file, loads_file, opens_file, converts};
ghost use Rattle.planning_c.specs.Examples.{OutcomesByExample};
ghost use Rattle.planning_c.specs.Outcomes.{refused, written, checked, room_with, refusal_told, line_of, with_line};

use line::put_line;
pub use outcome::Outcome;
use places::{book_opens, convert_to_book, task_loads};
use std::alloc::Global;

// What outcomes tell, by example; no call for C.
pub fn examples_of_outcomes()
    ensures { OutcomesByExample }
{}

// Converts the file of a task into the file of its book, at the front of the output, with so many places for each array that this takes.
// On a refusal the output is as it was.
#[unsafe(no_mangle)]
pub extern "C" fn planning_convert(
    alloc: Global,
    places: usize,
    input: &[u8],
    output: &mut [u8],
) -> Outcome
    ensures answers { (result ≡ refused no_memory) ⊎ (result ≡ written (converts input.now (room_with places) (length output.old))) }
    ensures inside { result.length ≤ length output.old }
    ensures written { result.number ≡ 0 → output.new ≡ over (book_file (task_in_file input.now)) output.old }
    ensures opens { result.number ≡ 0 → HoldsBook (take result.length output.new) (book_in (task_in_file input.now)) }
    ensures untouched { 0 < result.number → output.new ≡ output.old }
{
    match convert_to_book(alloc, places, input, output) {
        Ok(length) => Outcome::done(length),
        Err(fault) => Outcome::refused(fault),
    }
}

// Whether the file holds a task that loads, with so many places for each array that this takes.
#[unsafe(no_mangle)]
pub extern "C" fn planning_check_task(alloc: Global, places: usize, input: &[u8]) -> Outcome
    ensures { (result ≡ refused no_memory) ⊎ (result ≡ checked (loads_file input.now places places)) }
{
    match task_loads(alloc, places, input) {
        Ok(()) => Outcome::done(0),
        Err(fault) => Outcome::refused(fault),
    }
}

// The same of a book that opens.
#[unsafe(no_mangle)]
pub extern "C" fn planning_check_book(alloc: Global, places: usize, input: &[u8]) -> Outcome
    ensures { (result ≡ refused no_memory) ⊎ (result ≡ checked (opens_file input.now places places)) }
{
    match book_opens(alloc, places, input) {
        Ok(()) => Outcome::done(0),
        Err(fault) => Outcome::refused(fault),
    }
}

// Writes the line that tells the refusal to the front of the buffer, if there is room, and tells its length; 0 if the outcome tells no refusal.
#[unsafe(no_mangle)]
pub extern "C" fn planning_refusal_line(outcome: Outcome, line: &mut [u8]) -> usize
    ensures told { result ≡ length (line_of (refusal_told outcome)) }
    ensures written { line.new ≡ with_line (line_of (refusal_told outcome)) line.old }
{
    match outcome.refusal() {
        Some(fault) => put_line(fault, line),
        None => 0,
    }
}
