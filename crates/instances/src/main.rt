// What instantiating makes of some tasks: how many actions and entries their books have; and how fast, where a word is given.
#![tactic(auto)]

mod paths;
mod sizes;
mod towers;

use adl::{Sizes, Task};
use book::Sizes as BookSizes;
use fault::Fault;
use instantiate::instantiate;
use middleware::{BOOK_TABLE, SIZES, TABLE};
use paths::{pairs, path};
use rising::{Literal, Sign};
use std::alloc::Global;
use std::rt::{Clock, Env};
use std::time::Instant;
use std::{env, io};
use towers::tower;
use trials::{Arrays, Rows};

// The arrays that a book is written into, and the list that is lent for it.
#[derive(Drop)]
struct Lent {
    list: Vec<Literal>,
    kinds: Vec<u8>,
    operands: Vec<u32>,
}

impl Lent {
    fn new(alloc: Global) -> anyhow::Result<Lent> {
        let none = Literal {
            atom: 0,
            sign: Sign::Adds,
        };
        let mut list = Vec::new(alloc);
        list.resize(16384, none)?;
        let mut kinds = Vec::new(alloc);
        kinds.resize(1_048_576, 0)?;
        let mut operands = Vec::new(alloc);
        operands.resize(1_048_576, 0)?;
        Ok(Lent {
            list,
            kinds,
            operands,
        })
    }
}

// Whether the arrays begin with this table.
fn begins_with<const N: usize>(lent: &Lent, book: &Arrays<N>) -> bool {
    lent.kinds.get(..N) == Some(&book.kinds) && lent.operands.get(..N) == Some(&book.operands)
}

// A task whose table is built, with the number of its names.
#[derive(Drop)]
struct Built {
    words: &'static str,
    names: u32,
    sizes: Sizes,
    rows: Rows,
}

impl Built {
    fn of(words: &'static str, names: u32, table: (Sizes, Rows)) -> Built {
        let (sizes, rows) = table;
        Built {
            words,
            names,
            sizes,
            rows,
        }
    }
}

// Loads a task and writes its book.
fn write(
    alloc: Global,
    lent: &mut Lent,
    sizes: Sizes,
    kinds: &[u8],
    operands: &[u32],
) -> Result<BookSizes, Fault> {
    let mut task = Task::new();
    task.load(sizes, kinds, operands)?;
    instantiate(
        alloc,
        &task,
        &mut lent.list,
        &mut lent.kinds,
        &mut lent.operands,
    )
}

// Tells of the book of a task.
fn tell(rt: &impl Print, words: &str, written: Result<BookSizes, Fault>) -> io::Result<()> {
    match written {
        Ok(book) => {
            let BookSizes {
                atoms,
                relevant,
                always,
                actions,
                entries,
            } = book;
            println!(rt;
                "{words}: {atoms} atoms, {relevant} relevant, {always} always true, {actions} actions, {entries} entries"
            )
        }
        Err(fault) => println!(rt; "{words}: {fault}"),
    }
}

// Writes the book of a task so many times, and tells how many names it tries and how many entries it writes in a second.
fn measure(
    rt: &(impl Clock + Print),
    alloc: Global,
    lent: &mut Lent,
    built: &Built,
    rounds: u32,
) -> anyhow::Result<()> {
    let words = built.words;
    let mut entries = 0;
    let start = Instant::now(rt)?;
    for _ in 0..rounds {
        if let Ok(book) = write(
            alloc,
            lent,
            built.sizes,
            &built.rows.kinds,
            &built.rows.operands,
        ) {
            entries = book.entries;
        }
    }
    let whole = start.elapsed(rt)?.as_micros().max(1);
    let per_second = u128::from(rounds) * 1_000_000;
    let names = u128::from(built.names).saturating_mul(per_second) / whole;
    let entries = u128::from(entries).saturating_mul(per_second) / whole;
    println!(rt; "{words}: {names} names and {entries} entries per second")?;
    Ok(())
}

// The scenario's book, and whether it is the one that stands beside the scenario.
fn tell_scenario(rt: &impl Print, alloc: Global, lent: &mut Lent) -> io::Result<()> {
    let task = Arrays::of(&TABLE);
    tell(
        rt,
        "the scenario",
        write(alloc, lent, SIZES, &task.kinds, &task.operands),
    )?;
    if begins_with(lent, &Arrays::of(&BOOK_TABLE)) {
        println!(rt; "its book is the one that stands beside it, entry for entry")
    } else {
        println!(rt; "its book is another than the one that stands beside it")
    }
}

fn main(rt: HostRuntime) -> anyhow::Result<()> {
    let alloc = rt.alloc();
    let mut lent = Lent::new(alloc)?;
    let built = [
        Built::of("a tower of 3 discs", 120, tower(alloc, 3)?),
        Built::of("a tower of 8 discs", 990, tower(alloc, 8)?),
        Built::of("a path of 20 places", 116_280, path(alloc)?),
        Built::of("pairs of 32 objects", 29_760, pairs(alloc)?),
    ];
    let measuring = env::args(&rt)?.nth(1).is_some();
    tell_scenario(&rt, alloc, &mut lent)?;
    for task in &built {
        if measuring {
            measure(&rt, alloc, &mut lent, task, 20)?;
        } else {
            let written = write(
                alloc,
                &mut lent,
                task.sizes,
                &task.rows.kinds,
                &task.rows.operands,
            );
            tell(&rt, task.words, written)?;
        }
    }
    Ok(())
}
