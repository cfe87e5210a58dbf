// The lists, each in a room: stores, images and places for answers, just large enough or too small.
use crate::lists::{BEGINS, NAMES, NO_RUN, NUMBERS, SHORT};
use crate::subscriptions::SUBSCRIPTIONS;
use adl::Task;
use book::Book;
use columns::{MOST, Side, tell};
use protocol::Answer;
use std::io;
use store::{Bits, ListStore};

// Packed bits for the task and a list store for the book. Each list finds in them what the list before it left.
pub(crate) fn tell_exact(rt: &impl Print, task: &Task, book: &Book) -> io::Result<()> {
    let mut bytes = [0; 6];
    let mut slots = [0; 9];
    let mut by_task = Side {
        store: Bits::over(&mut bytes),
        image: &mut [0; 45],
        answers: &mut [Answer::NoRun; MOST],
    };
    let mut by_book = Side {
        store: ListStore::over(&mut slots),
        image: &mut [0; 9],
        answers: &mut [Answer::NoRun; MOST],
    };
    tell(
        rt,
        "begins again",
        &BEGINS,
        task,
        &mut by_task,
        book,
        &mut by_book,
    )?;
    tell(rt, "names", &NAMES, task, &mut by_task, book, &mut by_book)?;
    tell(
        rt,
        "numbers",
        &NUMBERS,
        task,
        &mut by_task,
        book,
        &mut by_book,
    )?;
    tell(
        rt,
        "no run",
        &NO_RUN,
        task,
        &mut by_task,
        book,
        &mut by_book,
    )
}

// The other way round: a list store for the task and packed bits for the book.
pub(crate) fn tell_subscriptions(rt: &impl Print, task: &Task, book: &Book) -> io::Result<()> {
    let mut slots = [0; 12];
    let mut bytes = [0];
    let mut by_task = Side {
        store: ListStore::over(&mut slots),
        image: &mut [0; 12],
        answers: &mut [Answer::NoRun; MOST],
    };
    let mut by_book = Side {
        store: Bits::over(&mut bytes),
        image: &mut [0; 2],
        answers: &mut [Answer::NoRun; MOST],
    };
    tell(
        rt,
        "subscriptions",
        &SUBSCRIPTIONS,
        task,
        &mut by_task,
        book,
        &mut by_book,
    )
}

// Plays the short list over these bytes and slots, with these images and places for answers.
fn tell_in(
    rt: &impl Print,
    words: &str,
    task: &Task,
    (bytes, image, answers): (&mut [u8], &mut [u8], &mut [Answer]),
    book: &Book,
    (slots, book_image, book_answers): (&mut [u32], &mut [u8], &mut [Answer]),
) -> io::Result<()> {
    let mut by_task = Side {
        store: Bits::over(bytes),
        image,
        answers,
    };
    let mut by_book = Side {
        store: ListStore::over(slots),
        image: book_image,
        answers: book_answers,
    };
    tell(rt, words, &SHORT, task, &mut by_task, book, &mut by_book)
}

fn tell_few_places(rt: &impl Print, task: &Task, book: &Book) -> io::Result<()> {
    let (four, five) = ([Answer::NoRun; 4], [Answer::NoRun; 5]);
    tell_in(
        rt,
        "four places for the task's answers",
        task,
        (&mut [0; 6], &mut [0; 45], &mut { four }),
        book,
        (&mut [0; 9], &mut [0; 9], &mut { five }),
    )?;
    tell_in(
        rt,
        "four places for the book's answers",
        task,
        (&mut [0; 6], &mut [0; 45], &mut { five }),
        book,
        (&mut [0; 9], &mut [0; 9], &mut { four }),
    )
}

fn tell_small_stores(rt: &impl Print, task: &Task, book: &Book) -> io::Result<()> {
    let five = [Answer::NoRun; 5];
    tell_in(
        rt,
        "a small store for the task",
        task,
        (&mut [0; 5], &mut [0; 45], &mut { five }),
        book,
        (&mut [0; 9], &mut [0; 9], &mut { five }),
    )?;
    tell_in(
        rt,
        "a small store for the book",
        task,
        (&mut [0; 6], &mut [0; 45], &mut { five }),
        book,
        (&mut [0; 8], &mut [0; 9], &mut { five }),
    )
}

fn tell_short_images(rt: &impl Print, task: &Task, book: &Book) -> io::Result<()> {
    let five = [Answer::NoRun; 5];
    tell_in(
        rt,
        "a short image for the task",
        task,
        (&mut [0; 6], &mut [0; 44], &mut { five }),
        book,
        (&mut [0; 9], &mut [0; 9], &mut { five }),
    )?;
    tell_in(
        rt,
        "a short image for the book",
        task,
        (&mut [0; 6], &mut [0; 45], &mut { five }),
        book,
        (&mut [0; 9], &mut [0; 8], &mut { five }),
    )
}

// The same short list, each time with one thing too small.
pub(crate) fn tell_short(rt: &impl Print, task: &Task, book: &Book) -> io::Result<()> {
    tell_few_places(rt, task, book)?;
    tell_small_stores(rt, task, book)?;
    tell_short_images(rt, task, book)
}
