// Lists of calls, each with words that tell it, played on a task and on a book: both answers beside each other.
#![tactic(auto)]

use adl::Task;
use agree::play_both;
use book::Book;
use protocol::{Answer, Call};
use std::io;
use store::Store;

// The most calls of a list.
pub const MOST: usize = 45;

// Where one of both is played: a store, an image and places for answers.
#[derive(Drop)]
pub struct Side<'p, S> {
    pub store: S,
    pub image: &'p mut [u8],
    pub answers: &'p mut [Answer],
}

// The calls of a list without their words, and ends where it is shorter.
fn calls_of<'l>(list: &[(&str, Call<'l>)]) -> [Call<'l>; MOST] {
    let mut calls = [Call::End; MOST];
    // by index: the borrow checker does not cover writing calls that borrow through iter_mut
    for (i, (_, call)) in list.iter().take(MOST).enumerate() {
        calls[i] = *call;
    }
    calls
}

// Plays the list on both and prints each call in words with both answers; where it is not played, why, and that no answer is written.
pub fn tell<S: Store, R: Store>(
    rt: &impl Print,
    words: &str,
    list: &[(&str, Call)],
    task: &Task,
    by_task: &mut Side<S>,
    book: &Book,
    by_book: &mut Side<R>,
) -> io::Result<()> {
    println!(rt; "{words:<40}task | book")?;
    by_task.answers.fill(Answer::NoRun);
    by_book.answers.fill(Answer::NoRun);
    if let Err(too_few) = play_both(
        task,
        &mut by_task.store,
        by_task.image,
        by_task.answers,
        book,
        &mut by_book.store,
        by_book.image,
        by_book.answers,
        &calls_of(list)[..list.len().min(MOST)],
    ) {
        println!(rt; "{too_few}")?;
    }
    let answers = by_task.answers.iter().zip(by_book.answers.iter());
    for ((words, _), (in_task, in_book)) in list.iter().zip(answers) {
        println!(rt; "{words:<40}{in_task} | {in_book}")?;
    }
    Ok(())
}
