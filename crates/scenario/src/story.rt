// The story: the task is loaded, its book is written and opened, and both are played call by call.
use crate::actions::tell_actions;
use adl::Task;
use book::{Book, Sizes};
use columns::{MOST, Side};
use instantiate::instantiate;
use middleware::{ENTRIES, SIZES, STORY};
use protocol::Answer;
use rising::{Literal, Sign};
use std::alloc::Global;
use std::io;
use store::Bits;
use trials::Arrays;

// How many entries the book may have.
const PLACES: usize = 256;

// What the list that is lent for the writing holds at first.
const NONE: Literal = Literal {
    atom: 0,
    sign: Sign::Adds,
};

fn play(rt: &impl Print, task: &Task, book: &Book) -> io::Result<()> {
    let mut task_bytes = [0; 8];
    let mut book_bytes = [0; 2];
    let mut by_task = Side {
        store: Bits::over(&mut task_bytes),
        image: &mut [0; 64],
        answers: &mut [Answer::NoRun; MOST],
    };
    let mut by_book = Side {
        store: Bits::over(&mut book_bytes),
        image: &mut [0; 16],
        answers: &mut [Answer::NoRun; MOST],
    };
    columns::tell(rt, "", &STORY, task, &mut by_task, book, &mut by_book)
}

// Opens the book that stands in the arrays, tells what it has and plays the story on the task and on it.
fn tell_both(
    rt: &impl Print,
    task: &Task,
    sizes: Sizes,
    kinds: &[u8],
    operands: &[u32],
) -> io::Result<()> {
    let Sizes {
        atoms,
        relevant,
        always,
        actions,
        entries,
    } = sizes;
    println!(rt;
        "its book is written: of {atoms} atoms {relevant} are relevant and {always} always true; {actions} actions, {entries} entries"
    )?;
    let mut book = Book::new();
    if let Err(fault) = book.open(sizes, kinds, operands) {
        return println!(rt; "open: {fault}");
    }
    let facts = book.facts();
    println!(rt; "its book is opened: {facts} relevant atoms")?;
    tell_actions(rt, &book)?;
    println!(rt; "the bad state: the display shows the new heading with the old track")?;
    play(rt, task, &book)
}

// Loads the task, writes its book and tells of both.
pub(crate) fn tell(
    rt: &impl Print,
    alloc: Global,
    task_arrays: &Arrays<ENTRIES>,
) -> io::Result<()> {
    let mut task = Task::new();
    if let Err(fault) = task.load(SIZES, &task_arrays.kinds, &task_arrays.operands) {
        return println!(rt; "load: {fault}");
    }
    let atoms = task.atoms();
    println!(rt; "the task is loaded: {atoms} atoms")?;
    let mut kinds = [0; PLACES];
    let mut operands = [0; PLACES];
    match instantiate(alloc, &task, &mut [NONE; 64], &mut kinds, &mut operands) {
        Ok(sizes) => tell_both(rt, &task, sizes, &kinds, &operands),
        Err(fault) => println!(rt; "instantiate: {fault}"),
    }
}
