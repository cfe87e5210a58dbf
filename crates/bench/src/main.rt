// Measures steps per second, and the share that copying the state into the image takes.
#![tactic(auto)]

mod large;

use adl::{Sizes, Task};
use book::Book;
use book_runs::BookRun;
use middleware::{BOOK_SIZES, BOOK_TABLE, LOCK, MUTEX, PUBLISHER, SIZES, TABLE, UNLOCK};
use protocol::{Name, Run};
use runs::TaskRun;
use std::rt::{Clock, Env};
use std::time::Instant;
use std::{env, io};
use store::{Bits, copy};
use trials::Arrays;

// How often the names are performed.
const ROUNDS: u32 = 20000;

// The publisher locks the mutex and gives it back.
const LOCKING: [Name; 2] = [
    Name {
        operator: LOCK,
        objects: &[PUBLISHER, MUTEX],
    },
    Name {
        operator: UNLOCK,
        objects: &[PUBLISHER, MUTEX],
    },
];

// A task table and the names that are performed on it. Its arrays are lent as slices: a course for tables of any length would have to
// bound that length, for its arrays to fit in memory.
#[derive(Clone, Copy)]
struct Course<'c> {
    words: &'c str,
    sizes: Sizes,
    kinds: &'c [u8],
    operands: &'c [u32],
    names: &'c [Name<'c>],
}

// Performs the names round after round on a task or a book; answers how many steps were taken, none where no run begins.
fn perform_all<R: Run>(subject: R::Of, store: &mut Bits, image: &mut [u8], names: &[Name]) -> u32 {
    let Ok(mut run) = R::begin(subject, store) else {
        return 0;
    };
    for _ in 0..ROUNDS {
        for name in names {
            let _ = run.perform(store, image, *name);
        }
    }
    run.end()
}

fn copy_often(task: &Task, store: &Bits, image: &mut [u8], times: u32) {
    for _ in 0..times {
        let _ = copy(store, image, task.atoms());
    }
}

fn measure(rt: &(impl Clock + Print), course: &Course) -> io::Result<()> {
    let words = course.words;
    let mut task = Task::new();
    if task
        .load(course.sizes, course.kinds, course.operands)
        .is_err()
    {
        return println!(rt; "{words}: the task does not load");
    }
    let mut bytes = [0; 8192];
    let mut image = [0; 65536];
    let mut store = Bits::over(&mut bytes);
    let start = Instant::now(rt)?;
    let steps = perform_all::<TaskRun>(&task, &mut store, &mut image, course.names);
    let whole = start.elapsed(rt)?.as_micros().max(1);
    let start = Instant::now(rt)?;
    copy_often(&task, &store, &mut image, steps);
    let copying = start.elapsed(rt)?.as_micros().min(whole);
    let rate = u128::from(steps) * 1_000_000 / whole;
    let share = copying.saturating_mul(100) / whole;
    println!(rt; "{words}: {rate} steps per second, copying takes {share} of 100 parts")
}

// The same steps as on the scenario, by a run of its book.
fn measure_book(rt: &(impl Clock + Print)) -> io::Result<()> {
    let arrays = Arrays::of(&BOOK_TABLE);
    let mut book = Book::new();
    if book
        .open(BOOK_SIZES, &arrays.kinds, &arrays.operands)
        .is_err()
    {
        return println!(rt; "the scenario's book: it does not open");
    }
    let mut bytes = [0; 2];
    let mut image = [0; 16];
    let mut store = Bits::over(&mut bytes);
    let start = Instant::now(rt)?;
    let steps = perform_all::<BookRun>(&book, &mut store, &mut image, &LOCKING);
    let whole = start.elapsed(rt)?.as_micros().max(1);
    let rate = u128::from(steps) * 1_000_000 / whole;
    println!(rt; "the scenario's book: {rate} steps per second")
}

fn measure_all(rt: &(impl Clock + Print)) -> io::Result<()> {
    let scenario = Arrays::of(&TABLE);
    let large = Arrays::of(&large::TABLE);
    let locking = Course {
        words: "the scenario",
        sizes: SIZES,
        kinds: &scenario.kinds,
        operands: &scenario.operands,
        names: &LOCKING,
    };
    let turning = Course {
        words: "32 objects and 32,768 atoms",
        sizes: large::SIZES,
        kinds: &large.kinds,
        operands: &large.operands,
        names: &large::TURNING,
    };
    measure(rt, &locking)?;
    measure_book(rt)?;
    measure(rt, &turning)
}

fn main(rt: HostRuntime) -> io::Result<()> {
    match env::args(&rt)?.nth(1) {
        Some(_) => measure_all(&rt),
        None => println!(rt; "to measure, give any word"),
    }
}
