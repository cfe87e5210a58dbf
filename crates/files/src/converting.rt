// Converting the file of a task into the file of its book.
ghost use Rattle.std.specs.Prelude.{◌≡◌, ◌≤◌, ◌⊎◌, length, take, Err, IfOk, MatchResult};
ghost use Rattle.table.specs.Answers.{whether};
ghost use Rattle.adl.specs.Held.{tree_of};
ghost use Rattle.instantiate.specs.Growing.{over};
ghost use Rattle.instantiate.specs.Refusals.{no_memory};
ghost use Rattle.model.specs.Books.{book as book_in};
ghost use Rattle.files.specs.Converting.{HoldsBook, before, room_of, task_in_file, book_file, loads_file, writes_file, converts};

use crate::reading::read_task_file;
use crate::writing::write_book_file;
use adl::Task;
use fault::Fault;
use instantiate::instantiate;
use rising::Literal;
use std::alloc::Global;

// The arrays in which converting works: for the entries of the task, for the literals of round one, for the entries of the book.
pub struct Lent<'a> {
    pub task_kinds: &'a mut [u8],
    pub task_operands: &'a mut [u32],
    pub literals: &'a mut [Literal],
    pub book_kinds: &'a mut [u8],
    pub book_operands: &'a mut [u32],
}

// Writes the file of the task's book to the front of the output, and tells its length; on a refusal the output is as it was.
fn write_book_of(
    alloc: Global,
    task: &Task,
    literals: &mut [Literal],
    kinds: &mut [u8],
    operands: &mut [u32],
    output: &mut [u8],
) -> Result<usize, Fault>
    ensures answers { (result ≡ Err no_memory) ⊎ (result ≡ writes_file (tree_of task.now) (length literals.old) (length kinds.old) (length operands.old) (length output.old)) }
    ensures written { MatchResult result (λ _. output.new ≡ over (book_file (tree_of task.now)) output.old) (λ _. output.new ≡ output.old) }
    ensures opens { IfOk result (λ n. HoldsBook (take n output.new) (book_in (tree_of task.now))) }
    ensures inside { IfOk result (λ n. n ≤ length output.old) }
{
    let sizes = instantiate(alloc, task, literals, kinds, operands)?;
    let entries = sizes.entries as usize;
    write_book_file(sizes, &kinds[..entries], &operands[..entries], output)
}

// Loads the task in the file, whose entries are taken into the arrays.
fn load_file<'a>(
    input: &[u8],
    kinds: &'a mut [u8],
    operands: &'a mut [u32],
) -> Result<Task<'a>, Fault>
    ensures answers { whether result ≡ loads_file input.now (length kinds.old) (length operands.old) }
    ensures loaded { IfOk result (λ task. tree_of task ≡ task_in_file input.now) }
{
    let sizes = read_task_file(input, kinds, operands)?;
    let entries = sizes.entries as usize;
    let mut task = Task::new();
    task.load(sizes, &kinds[..entries], &operands[..entries])?;
    Ok(task)
}

// The same as `convert`, with each array by itself: the borrow checker covers fields of a struct only where they are handed on.
fn convert_in(
    alloc: Global,
    input: &[u8],
    task_kinds: &mut [u8],
    task_operands: &mut [u32],
    literals: &mut [Literal],
    book_kinds: &mut [u8],
    book_operands: &mut [u32],
    output: &mut [u8],
) -> Result<usize, Fault>
    ensures answers { (result ≡ Err no_memory) ⊎ (result ≡ before (loads_file input.now (length task_kinds.old) (length task_operands.old))
        (writes_file (task_in_file input.now) (length literals.old) (length book_kinds.old) (length book_operands.old) (length output.old))) }
    ensures written { MatchResult result (λ _. output.new ≡ over (book_file (task_in_file input.now)) output.old) (λ _. output.new ≡ output.old) }
    ensures opens { IfOk result (λ n. HoldsBook (take n output.new) (book_in (task_in_file input.now))) }
    ensures inside { IfOk result (λ n. n ≤ length output.old) }
{
    let task = load_file(input, task_kinds, task_operands)?;
    write_book_of(alloc, &task, literals, book_kinds, book_operands, output)
}

// Converts the file of a task into the file of its book, at the front of the output, and tells its length; on a refusal the output is as it was. The
// lent arrays are free afterwards.
pub fn convert(alloc: Global, input: &[u8], lent: Lent, output: &mut [u8]) -> Result<usize, Fault>
    ensures answers { (result ≡ Err no_memory) ⊎ (result ≡ converts input.now (room_of lent.entry) (length output.old)) }
    ensures written { MatchResult result (λ _. output.new ≡ over (book_file (task_in_file input.now)) output.old) (λ _. output.new ≡ output.old) }
    ensures opens { IfOk result (λ n. HoldsBook (take n output.new) (book_in (task_in_file input.now))) }
    ensures inside { IfOk result (λ n. n ≤ length output.old) }
{
    let Lent {
        task_kinds,
        task_operands,
        literals,
        book_kinds,
        book_operands,
    } = lent;
    convert_in(
        alloc,
        input,
        task_kinds,
        task_operands,
        literals,
        book_kinds,
        book_operands,
        output,
    )
}
