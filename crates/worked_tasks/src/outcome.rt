// What comes out of a worked task.
ghost use Rattle.std.specs.Prelude.{◌≡◌, MatchResult};
ghost use Rattle.instantiate.specs.Refusals.{no_memory};
ghost use Rattle.worked_tasks.specs.Outcomes.{CameOut};

use crate::answers::{MOST, answers_of_book, answers_of_task};
use adl::Task;
use book::{Book, Sizes};
use fault::Fault;
use instantiate::instantiate;
use protocol::Answer;
use rising::{Literal, Sign};
use std::alloc::Global;
use worked::Case;

// The most entries of a book.
pub(crate) const ROOM: usize = 16;

// The table of its book, and what the runs of both answer.
#[derive(Clone, Copy)]
pub(crate) struct Outcome {
    pub(crate) sizes: Sizes,
    pub(crate) kinds: [u8; ROOM],
    pub(crate) operands: [u32; ROOM],
    pub(crate) of_task: [Answer; MOST],
    pub(crate) of_book: [Answer; MOST],
}

// Loads the task, writes its book, opens it, and plays the calls on both.
pub(crate) fn work_out(alloc: Global, case: Case) -> Result<Outcome, Fault>
    ensures { MatchResult result (CameOut case) (λ fault. fault ≡ no_memory) }
{
    let written = case.task();
    let task_kinds = written.kinds(alloc)?;
    let task_operands = written.operands(alloc)?;
    let mut task = Task::new();
    task.load(written.sizes, &task_kinds, &task_operands)?;
    let free = Literal {
        atom: 0,
        sign: Sign::Adds,
    };
    let mut list = [free; ROOM];
    let mut kinds = [0; ROOM];
    let mut operands = [0; ROOM];
    let sizes = instantiate(alloc, &task, &mut list, &mut kinds, &mut operands)?;
    let mut book = Book::new();
    book.open(sizes, &kinds, &operands)?;
    let of_task = answers_of_task(case, &task);
    let of_book = answers_of_book(case, &book);
    Ok(Outcome {
        sizes,
        kinds,
        operands,
        of_task,
        of_book,
    })
}
