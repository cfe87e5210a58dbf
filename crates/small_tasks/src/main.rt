// Plays lists of calls on small tasks, and prints what each call answers.
#![tactic(auto)]

mod cases;

use adl::Task;
use cases::{CASES, Case};
use play::play;
use protocol::Answer;
use runs::TaskRun;
use std::io;
use store::Bits;
use table::Kind;
use trials::Arrays;

// The most calls of a case.
const MOST: usize = 12;

// The most entries of a table.
const ROOM: usize = 30;

// The arrays of a case's table, and TRUE where they have room left.
fn arrays_of(case: &Case) -> Arrays<ROOM> {
    let mut table = [(Kind::True, 0); ROOM];
    for (entry, written) in table.iter_mut().zip(case.declared.iter().chain(case.rest)) {
        *entry = *written;
    }
    Arrays::of(&table)
}

// The answers to the calls of a case, over packed bits with room for 64 facts. Where the table does not load no run begins, so no call finds one.
// A program without a heap: what the arrays have room for beyond the case is left unused.
fn answers_of(case: &Case) -> [Answer; MOST] {
    let mut answers = [Answer::NoRun; MOST];
    let arrays = arrays_of(case);
    let mut task = Task::new();
    if task
        .load(case.sizes, &arrays.kinds, &arrays.operands)
        .is_err()
    {
        return answers;
    }
    let mut bytes = [0; 8];
    let mut store = Bits::over(&mut bytes);
    let mut image = [0; 64];
    let _ = play::<TaskRun, _>(&task, &mut store, &mut image, case.calls, &mut answers);
    answers
}

fn say_case(rt: &impl Print, case: &Case) -> io::Result<()> {
    rt.print(case.words)?;
    let answers = answers_of(case);
    for (place, answer) in answers.iter().take(case.calls.len()).enumerate() {
        let between = if place == 0 { ": " } else { ", " };
        print!(rt; "{between}{answer}")?;
    }
    rt.println("")
}

fn main(rt: HostRuntime) -> io::Result<()> {
    for case in &CASES {
        say_case(&rt, case)?;
    }
    Ok(())
}
