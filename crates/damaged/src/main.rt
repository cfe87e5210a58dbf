// Loads a small task with one thing damaged at a time, and prints what each meets.
#![tactic(auto)]

mod cases;

use adl::{Sizes, Task};
use cases::{DAMAGES, ENTRIES, RESIZES, SIZES, TABLE};
use fault::Fault;
use std::io;
use trials::{Arrays, Told};

// What loading answers; beside what opening answers in damaged_books: a trait over tasks and books would be longer than both.
fn load(sizes: Sizes, arrays: &Arrays<ENTRIES>) -> Result<(), Fault> {
    let mut task = Task::new();
    task.load(sizes, &arrays.kinds, &arrays.operands)
}

// Beside that of damaged_books, as the word differs.
fn tell(rt: &impl Print, words: &str, answer: Result<(), Fault>) -> io::Result<()> {
    println!(rt; "{words}: {}", Told(answer.map(|()| "loads")))
}

fn main(rt: HostRuntime) -> io::Result<()> {
    let arrays = Arrays::of(&TABLE);
    for damage in &DAMAGES {
        tell(&rt, damage.words, load(SIZES, &arrays.damaged(damage)))?;
    }
    for resize in &RESIZES {
        tell(&rt, resize.words, load(resize.sizes, &arrays))?;
    }
    Ok(())
}
