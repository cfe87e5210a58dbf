// Converting and checking in arrays of so many places.
ghost use Rattle.std.specs.Prelude.{◌≡◌, ◌≤◌, ◌⊎◌, length, take, Err, IfOk, MatchResult};
ghost use Rattle.instantiate.specs.Growing.{over};
ghost use Rattle.instantiate.specs.Refusals.{no_memory};
ghost use Rattle.model.specs.Books.{book as book_in};
ghost use Rattle.files.specs.Converting.{HoldsBook, task_in_file, book_file, loads_file, opens_file, converts};
ghost use Rattle.planning_c.specs.Outcomes.{room_with};

use fault::Fault;
use files::{Lent, check_book_file, check_task_file, convert};
use rising::{Literal, Sign};
use std::alloc::Global;

// As `convert` of crate `files`, where each lent array has so many places.
pub(crate) fn convert_to_book(
    alloc: Global,
    places: usize,
    input: &[u8],
    output: &mut [u8],
) -> Result<usize, Fault>
    ensures answers { (result ≡ Err no_memory) ⊎ (result ≡ converts input.now (room_with places) (length output.old)) }
    ensures inside { IfOk result (λ n. n ≤ length output.old) }
    ensures written { MatchResult result (λ _. output.new ≡ over (book_file (task_in_file input.now)) output.old) (λ _. output.new ≡ output.old) }
    ensures opens { IfOk result (λ n. HoldsBook (take n output.new) (book_in (task_in_file input.now))) }
{
    let literal = Literal {
        atom: 0,
        sign: Sign::Adds,
    };
    let mut task_kinds = Vec::from_elem(alloc, 0u8, places)?;
    let mut task_operands = Vec::from_elem(alloc, 0u32, places)?;
    let mut literals = Vec::from_elem(alloc, literal, places)?;
    let mut book_kinds = Vec::from_elem(alloc, 0u8, places)?;
    let mut book_operands = Vec::from_elem(alloc, 0u32, places)?;
    let lent = Lent {
        task_kinds: &mut task_kinds,
        task_operands: &mut task_operands,
        literals: &mut literals,
        book_kinds: &mut book_kinds,
        book_operands: &mut book_operands,
    };
    convert(alloc, input, lent, output)
}

// As `check_task_file` of crate `files`, with so many places.
pub(crate) fn task_loads(alloc: Global, places: usize, input: &[u8]) -> Result<(), Fault>
    ensures { (result ≡ Err no_memory) ⊎ (result ≡ loads_file input.now places places) }
{
    let mut kinds = Vec::from_elem(alloc, 0u8, places)?;
    let mut operands = Vec::from_elem(alloc, 0u32, places)?;
    check_task_file(input, &mut kinds, &mut operands)
}

// As `check_book_file` of crate `files`, with so many places.
pub(crate) fn book_opens(alloc: Global, places: usize, input: &[u8]) -> Result<(), Fault>
    ensures { (result ≡ Err no_memory) ⊎ (result ≡ opens_file input.now places places) }
{
    let mut kinds = Vec::from_elem(alloc, 0u8, places)?;
    let mut operands = Vec::from_elem(alloc, 0u32, places)?;
    check_book_file(input, &mut kinds, &mut operands)
}
