// Writing the book of a task into two lent arrays.
ghost use Rattle.std.specs.Prelude.{◌≡◌, ◌≤◌, ◌⊎◌, [], map, length, Ok, Err, IfOk, MatchResult};
ghost use Rattle.table.specs.Entries.{coded};
ghost use Rattle.store.specs.Packed.{facts_of};
ghost use Rattle.adl.specs.Held.{tree_of};
ghost use Rattle.model.specs.Books.{book as book_in};
ghost use Rattle.book.specs.Opens.{opens, given, book_of};
ghost use Rattle.model.specs.Settling.{round_two};
ghost use Rattle.runs.specs.Settled.{round_of};
ghost use Rattle.book_of_task.specs.Becoming.{SameBecoming};
ghost use Rattle.instantiate.specs.Growing.{Grown, over};
ghost use Rattle.instantiate.specs.Verdicts.{FactsIn};
ghost use Rattle.instantiate.specs.Outcome.{book_entries, literals_one, literals_needed, sizes_of, instantiates, kinds_of, operands_of};
ghost use Rattle.instantiate.specs.Refusals.{no_memory, TooShort, TooLong};

use crate::actions::write_actions;
use crate::facts::put_first;
use crate::front::copy_to_front;
use crate::growing::Growing;
use crate::listing::list_literals;
use crate::preface::write_preface;
use crate::verdicts::{verdicts_one, verdicts_two};
use crate::work::Work;
use adl::Task;
use book::Sizes;
use fault::{Cause, Fault, Layer};
use rising::{Literal, Rising};
use runs::Verdict;
use std::alloc::Global;
use store::Bits;

// Settles what can change in two rounds: the verdicts of the second, or the refusal of a list that is too short.
fn settle(
    alloc: Global,
    task: &Task,
    facts: &Bits,
    work: &mut Work,
    list: &mut [Literal],
) -> Result<Vec<Verdict>, Fault>
    requires { FactsIn (tree_of task.now) (facts_of facts.now) }
    ensures { MatchResult result
        (λ vs. SameBecoming (round_of vs.items) (round_two (tree_of task.now)) × (literals_needed (tree_of task.now) ≤ length list.old))
        (λ fault. (fault ≡ no_memory) ⊎ TooShort (length list.old) (literals_one (tree_of task.now)) fault) }
{
    let one = verdicts_one(alloc, task, facts)?;
    let mut listed = Rising::over(list);
    list_literals(task, &one, work, &mut listed)?;
    let two = verdicts_two(alloc, task, facts, &listed)?;
    Ok(two)
}

// Writes the book, as far as there is room; tells its sizes, or the refusal of a book that is too long.
fn compose(
    alloc: Global,
    task: &Task,
    facts: &Bits,
    verdicts: &[Verdict],
    work: &mut Work,
    book: &mut Growing,
) -> Result<Sizes, Fault>
    requires facts { FactsIn (tree_of task.now) (facts_of facts.now) }
    requires settled { SameBecoming (round_of verdicts.now) (round_two (tree_of task.now)) }
    requires empty { Grown [] book.old }
    requires most { book.old.most ≤ 1048576 }
    ensures composed { MatchResult result
        (λ sizes. (sizes ≡ sizes_of (book_in (tree_of task.now))) × (map coded book.new.entries.items ≡ book_entries (tree_of task.now))
        × (length (book_entries (tree_of task.now)) ≤ book.old.most))
        (λ fault. (fault ≡ no_memory) ⊎ TooLong book.old.most (book_entries (tree_of task.now)) fault) }
{
    work.draft.clear();
    let groups = write_preface(task, facts, verdicts, &mut work.draft.entries)?;
    book.add(&work.draft.entries)?;
    let actions = write_actions(task, verdicts, work, book)?;
    if book.total > book.most {
        return Err(Fault::new(Cause::BookTooLong, Layer::Book, book.total));
    }
    Ok(Sizes {
        atoms: task.atoms,
        relevant: groups.relevant,
        always: groups.always,
        actions,
        entries: book.total as u32,
    })
}

// Writes the book of the task to the front of the arrays, and tells its sizes; on a refusal both arrays are as they were. The list serves for the
// literals of round one, and is free afterwards.
pub fn instantiate(
    alloc: Global,
    task: &Task,
    list: &mut [Literal],
    kinds: &mut [u8],
    operands: &mut [u32],
) -> Result<Sizes, Fault>
    ensures answers { (result ≡ Err no_memory) ⊎ (result ≡ instantiates (tree_of task.now) (length list.old) (length kinds.old) (length operands.old)) }
    ensures written { MatchResult result
        (λ _. (kinds.new ≡ over (kinds_of (book_entries (tree_of task.now))) kinds.old) × (operands.new ≡ over (operands_of (book_entries (tree_of task.now))) operands.old))
        (λ _. (kinds.new ≡ kinds.old) × (operands.new ≡ operands.old)) }
    ensures opens { IfOk result (λ sizes. (opens sizes kinds.new operands.new ≡ Ok tt) × (book_of (given sizes kinds.new operands.new) ≡ book_in (tree_of task.now))) }
{
    let most = kinds.len().min(operands.len()).min(1048576);
    let mut bytes = [0; 8192];
    let mut facts = Bits::over(&mut bytes);
    put_first(task, &mut facts);
    let mut work = Work::new(alloc);
    let verdicts = settle(alloc, task, &facts, &mut work, list)?;
    let mut book = Growing::new(alloc, most as u64);
    let sizes = compose(alloc, task, &facts, &verdicts, &mut work, &mut book)?;
    copy_to_front(&book.entries, kinds, operands);
    Ok(sizes)
}
