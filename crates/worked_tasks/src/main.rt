// Works out the worked tasks: loads each, writes its book, opens it, plays its calls on both, and prints what comes out.
#![tactic(auto)]

mod answers;
mod outcome;

use book::Sizes;
use outcome::{Outcome, work_out};
use protocol::Answer;
use std::alloc::Global;
use std::io;
use worked::Case;

fn words_of(case: Case) -> &'static str {
    match case {
        Case::CellPainted => "a cell is painted while none is",
        Case::GoalTrue => "the goal TRUE and nothing else",
        Case::ForallOfNone => "FORALL over a type without objects",
        Case::ExistsOfNone => "EXISTS over a type without objects",
        Case::OrOfNothing => "OR of nothing",
        Case::AndOfNothing => "AND of nothing",
        Case::NotOfNot => "NOT of NOT",
        Case::ObjectTwice => "a name with an object twice",
        Case::DeletedAndAdded => "an atom deleted and added in one step",
    }
}

// The sizes of a book, and the kinds and the operands of its entries.
fn tell_book(rt: &impl Print, outcome: &Outcome) -> io::Result<()> {
    let Sizes {
        atoms,
        relevant,
        always,
        actions,
        entries,
    } = outcome.sizes;
    println!(rt;
        "  its book: {atoms} atoms, {relevant} relevant, {always} always true, {actions} actions, {entries} entries"
    )?;
    rt.print("  kinds")?;
    for kind in outcome.kinds.iter().take(entries as usize) {
        print!(rt; " {kind}")?;
    }
    rt.print("\n  operands")?;
    for operand in outcome.operands.iter().take(entries as usize) {
        print!(rt; " {operand}")?;
    }
    rt.println("")
}

fn tell_run(rt: &impl Print, whose: &str, answers: &[Answer], calls: usize) -> io::Result<()> {
    print!(rt; "  {whose}")?;
    for (place, answer) in answers.iter().take(calls).enumerate() {
        let between = if place == 0 { ": " } else { ", " };
        print!(rt; "{between}{answer}")?;
    }
    rt.println("")
}

fn tell_case(rt: &impl Print, alloc: Global, case: Case) -> io::Result<()> {
    let words = words_of(case);
    match work_out(alloc, case) {
        Ok(outcome) => {
            rt.println(words)?;
            tell_book(rt, &outcome)?;
            let calls = case.calls().len();
            tell_run(rt, "the task", &outcome.of_task, calls)?;
            tell_run(rt, "the book", &outcome.of_book, calls)
        }
        Err(fault) => println!(rt; "{words}: {fault}"),
    }
}

fn main(rt: HostRuntime) -> io::Result<()> {
    let alloc = rt.alloc();
    for case in Case::all() {
        tell_case(&rt, alloc, case)?;
    }
    Ok(())
}
