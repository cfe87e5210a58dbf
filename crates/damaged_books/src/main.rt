// Opens a small book with one thing damaged at a time, and prints what each meets.
#![tactic(auto)]

mod cases;

use book::{Book, Sizes};
use cases::{DAMAGES, ENTRIES, RESIZES, SIZES, TABLE};
use fault::Fault;
use std::io;
use trials::{Arrays, Told};

// What opening answers; beside what loading answers in damaged: a trait over tasks and books would be longer than both.
fn open<'a>(sizes: Sizes, kinds: &'a [u8], operands: &'a [u32]) -> Result<(), Fault> {
    let mut book = Book::new();
    book.open(sizes, kinds, operands)
}

// Beside that of damaged, as the word differs.
fn tell(rt: &impl Print, words: &str, answer: Result<(), Fault>) -> io::Result<()> {
    println!(rt; "{words}: {}", Told(answer.map(|()| "opens")))
}

fn tell_short(rt: &impl Print, arrays: &Arrays<ENTRIES>) -> io::Result<()> {
    let kinds = &arrays.kinds[..];
    let operands = &arrays.operands[..];
    let short = open(SIZES, &kinds[..kinds.len() - 1], operands);
    tell(rt, "a short array of kinds", short)?;
    let short = open(SIZES, kinds, &operands[..operands.len() - 2]);
    tell(rt, "a short array of operands", short)
}

fn main(rt: HostRuntime) -> io::Result<()> {
    let arrays = Arrays::of(&TABLE);
    for damage in &DAMAGES {
        let damaged = arrays.damaged(damage);
        let answer = open(SIZES, &damaged.kinds, &damaged.operands);
        tell(&rt, damage.words, answer)?;
    }
    for resize in &RESIZES {
        let answer = open(resize.sizes, &arrays.kinds, &arrays.operands);
        tell(&rt, resize.words, answer)?;
    }
    tell_short(&rt, &arrays)
}
