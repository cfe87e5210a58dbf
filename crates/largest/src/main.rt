// Loads, runs and instantiates tasks at the limits, and runs their books.
#![tactic(auto)]

mod case;
mod limit;
mod names;
mod nesting;
mod wide;

use adl::Task;
use book::{Book, Sizes};
use book_runs::BookRun;
use case::Case;
use fault::Fault;
use instantiate::instantiate;
use limit::{LIMITS, Limit, build};
use protocol::{Name, Run};
use rising::{Literal, Sign};
use runs::TaskRun;
use std::alloc::{AllocError, Global};
use std::rt::Env;
use std::{env, io};
use store::Bits;

// What is lent: the bytes of a store, an image, a list of literals, and the arrays of a book.
#[derive(Drop)]
struct Lent {
    bytes: Vec<u8>,
    image: Vec<u8>,
    list: Vec<Literal>,
    kinds: Vec<u8>,
    operands: Vec<u32>,
}

impl Lent {
    // Enough for every task.
    fn new(alloc: Global) -> Result<Lent, AllocError> {
        let none = Literal {
            atom: 0,
            sign: Sign::Adds,
        };
        let mut lent = Lent {
            bytes: Vec::new(alloc),
            image: Vec::new(alloc),
            list: Vec::new(alloc),
            kinds: Vec::new(alloc),
            operands: Vec::new(alloc),
        };
        lent.bytes.resize(8192, 0)?;
        lent.image.resize(65536, 0)?;
        lent.list.resize(131_072, none)?;
        lent.kinds.resize(1_048_576, 0)?;
        lent.operands.resize(1_048_576, 0)?;
        Ok(lent)
    }
}

// What a run came to: the steps taken, and the goal after them.
#[derive(Clone, Copy)]
struct Ran {
    steps: u32,
    goal: bool,
}

// Performs each operator once with these objects.
fn run<R: Run>(
    subject: R::Of,
    bytes: &mut [u8],
    image: &mut [u8],
    operators: u32,
    objects: &[u32],
) -> Result<Ran, Fault> {
    let mut store = Bits::over(bytes);
    let mut run = R::begin(subject, &mut store)?;
    for operator in 0..operators {
        let _ = run.perform(&mut store, image, Name { operator, objects });
    }
    let goal = run.goal(&store, image);
    let steps = run.end();
    Ok(Ran { steps, goal: goal? })
}

// What became of a task: the sizes of its book, and what its run and its book's run came to, where they were made.
#[derive(Clone, Copy)]
struct Outcome {
    book: Sizes,
    runs: Option<(Ran, Ran)>,
}

// Writes the book of a loaded task, opens it, and runs both.
fn try_task(alloc: Global, task: &Task, case: &Case, lent: &mut Lent) -> Result<Outcome, Fault> {
    let sizes = instantiate(
        alloc,
        task,
        &mut lent.list,
        &mut lent.kinds,
        &mut lent.operands,
    )?;
    let mut book = Book::new();
    book.open(sizes, &lent.kinds, &lent.operands)?;
    let Some(objects) = case.objects else {
        return Ok(Outcome {
            book: sizes,
            runs: None,
        });
    };
    let operators = case.sizes.operators;
    let (bytes, image) = (&mut lent.bytes, &mut lent.image);
    let of_task = run::<TaskRun>(task, bytes, image, operators, objects)?;
    let of_book = run::<BookRun>(&book, bytes, image, operators, objects)?;
    Ok(Outcome {
        book: sizes,
        runs: Some((of_task, of_book)),
    })
}

fn load_and_try(alloc: Global, case: &Case, lent: &mut Lent) -> Result<Outcome, Fault> {
    let mut task = Task::new();
    task.load(case.sizes, &case.rows.kinds, &case.rows.operands)?;
    try_task(alloc, &task, case, lent)
}

fn tell_book(rt: &impl Print, case: &Case, book: Sizes) -> io::Result<()> {
    let Sizes {
        atoms,
        relevant,
        always,
        actions,
        entries,
    } = book;
    print!(rt;
        "{}: entries {}, atoms {atoms}; its book: relevant {relevant}, always true {always}, actions {actions}, entries {entries}",
        case.limit.word(),
        case.sizes.entries
    )
}

fn tell_runs(rt: &impl Print, of_task: Ran, of_book: Ran) -> io::Result<()> {
    println!(rt;
        "; its run: steps {}, goal {}; its book's run: steps {}, goal {}",
        of_task.steps, of_task.goal, of_book.steps, of_book.goal
    )
}

fn tell(rt: &impl Print, case: &Case, outcome: Result<Outcome, Fault>) -> io::Result<()> {
    let outcome = match outcome {
        Ok(outcome) => outcome,
        Err(fault) => return println!(rt; "{}: {fault}", case.limit.word()),
    };
    tell_book(rt, case, outcome.book)?;
    match outcome.runs {
        Some((of_task, of_book)) => tell_runs(rt, of_task, of_book),
        None => println!(rt; ""),
    }
}

fn try_limit(rt: &impl Print, alloc: Global, lent: &mut Lent, limit: Limit) -> anyhow::Result<()> {
    let case = build(alloc, limit)?;
    let outcome = load_and_try(alloc, &case, lent);
    tell(rt, &case, outcome)?;
    Ok(())
}

// Tries the tasks of all limits, or that of the one whose word is given.
fn main(rt: HostRuntime) -> anyhow::Result<()> {
    let alloc = rt.alloc();
    let mut lent = Lent::new(alloc)?;
    let asked = env::args(&rt)?.nth(1);
    for limit in LIMITS {
        let wanted = match &asked {
            Some(word) => word.as_str() == limit.word(),
            None => true,
        };
        if wanted {
            try_limit(&rt, alloc, &mut lent, limit)?;
        }
    }
    Ok(())
}
