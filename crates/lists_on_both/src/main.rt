// Plays lists of calls on two tasks and on their books, over two kinds of stores, and prints what both answer.
#![tactic(auto)]

mod lists;
mod rooms;
mod subscriptions;

use adl::Task;
use book::Book;
use middleware::{BOOK_ENTRIES, BOOK_SIZES, BOOK_TABLE, ENTRIES, SIZES, TABLE};
use rooms::{tell_exact, tell_short, tell_subscriptions};
use std::io;
use trials::Arrays;

fn on_middleware(
    rt: &impl Print,
    task_arrays: &Arrays<ENTRIES>,
    book_arrays: &Arrays<BOOK_ENTRIES>,
) -> io::Result<()> {
    let mut task = Task::new();
    let mut book = Book::new();
    let loaded = task.load(SIZES, &task_arrays.kinds, &task_arrays.operands);
    let opened = book.open(BOOK_SIZES, &book_arrays.kinds, &book_arrays.operands);
    if let Err(fault) = loaded.and(opened) {
        return println!(rt; "the middleware: {fault}");
    }
    tell_exact(rt, &task, &book)?;
    tell_short(rt, &task, &book)
}

fn on_subscriptions(
    rt: &impl Print,
    task_arrays: &Arrays<{ subscriptions::ENTRIES }>,
    book_arrays: &Arrays<{ subscriptions::BOOK_ENTRIES }>,
) -> io::Result<()> {
    let mut task = Task::new();
    let mut book = Book::new();
    let loaded = task.load(
        subscriptions::SIZES,
        &task_arrays.kinds,
        &task_arrays.operands,
    );
    let opened = book.open(
        subscriptions::BOOK_SIZES,
        &book_arrays.kinds,
        &book_arrays.operands,
    );
    if let Err(fault) = loaded.and(opened) {
        return println!(rt; "the subscriptions: {fault}");
    }
    tell_subscriptions(rt, &task, &book)
}

fn main(rt: HostRuntime) -> io::Result<()> {
    on_middleware(&rt, &Arrays::of(&TABLE), &Arrays::of(&BOOK_TABLE))?;
    on_subscriptions(
        &rt,
        &Arrays::of(&subscriptions::TABLE),
        &Arrays::of(&subscriptions::BOOK_TABLE),
    )
}
