// Opens books with very many parts and with deep nesting, and judges their goals: the stack need not grow with the parts.
#![tactic(auto)]

use book::{Book, Sizes};
use book_runs::BookRun;
use fault::Fault;
use protocol::Run;
use std::alloc::{AllocError, Global};
use store::Bits;
use table::Kind;

// A goal: AND of some parts TRUE and, as the last part, `depth` NOTs one inside the other and a TRUE.
struct Goal {
    words: &'static str,
    // how many parts the AND says that it has
    said: u32,
    parts: u32,
    depth: u32,
}

const GOALS: [Goal; 5] = [
    Goal {
        words: "a million parts, and an entry inside 512 others",
        said: 1_000_001,
        parts: 1_000_000,
        depth: 511,
    },
    Goal {
        words: "a million parts, and an entry inside 513 others",
        said: 1_000_001,
        parts: 1_000_000,
        depth: 512,
    },
    Goal {
        words: "a million parts, where four thousand million are said to come",
        said: 4_000_000_000,
        parts: 1_000_000,
        depth: 511,
    },
    Goal {
        words: "as many entries as a book may have",
        said: 1_048_575,
        parts: 1_048_574,
        depth: 0,
    },
    Goal {
        words: "one entry more",
        said: 1_048_576,
        parts: 1_048_575,
        depth: 0,
    },
];

// The kinds of the book's entries.
fn fill_kinds(kinds: &mut Vec<u8>, goal: &Goal) -> Result<(), AllocError> {
    let parts = goal.parts as usize;
    let depth = goal.depth as usize;
    kinds.push(u8::from(Kind::And))?;
    kinds.resize(1 + parts, u8::from(Kind::True))?;
    kinds.resize(1 + parts + depth, u8::from(Kind::Not))?;
    kinds.push(u8::from(Kind::True))?;
    Ok(())
}

// The operands of so many entries: only the first has one.
fn fill_operands(operands: &mut Vec<u32>, goal: &Goal, entries: usize) -> Result<(), AllocError> {
    operands.push(goal.said)?;
    operands.resize(entries, 0)
}

// Begins a run of the book, asks for the goal and ends the run.
fn judge(book: &Book) -> Result<bool, Fault> {
    let mut bytes = [0; 1];
    let mut store = Bits::over(&mut bytes);
    let mut image = [0; 1];
    let run = BookRun::begin(book, &mut store)?;
    let answer = run.goal(&store, &mut image);
    let _ = run.end();
    answer
}

fn answer<'a>(entries: u32, kinds: &'a [u8], operands: &'a [u32]) -> Result<bool, Fault> {
    let mut book = Book::new();
    let sizes = Sizes {
        atoms: 0,
        relevant: 0,
        always: 0,
        actions: 0,
        entries,
    };
    book.open(sizes, kinds, operands)?;
    judge(&book)
}

fn tell(rt: &impl Print, heap: Global, goal: &Goal) -> anyhow::Result<()> {
    let words = goal.words;
    let mut kinds = Vec::new(heap);
    let mut operands = Vec::new(heap);
    fill_kinds(&mut kinds, goal)?;
    fill_operands(&mut operands, goal, kinds.len())?;
    // a table of no entries is refused when it is opened
    let entries = u32::try_from(kinds.len()).unwrap_or(0);
    match answer(entries, kinds.as_slice(), operands.as_slice()) {
        Ok(value) => println!(rt; "{words}: opens, and its goal is {value}")?,
        Err(fault) => println!(rt; "{words}: {fault}")?,
    }
    Ok(())
}

fn main(rt: HostRuntime) -> anyhow::Result<()> {
    for goal in &GOALS {
        tell(&rt, rt.alloc(), goal)?;
    }
    Ok(())
}
