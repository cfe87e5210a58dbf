// Converts the file of a task, from standard input, into the file of its book, on standard output.
#![tactic(auto)]

mod converted;
mod help;

use converted::write_converted;
use help::HELP;
use std::env;
use std::io::{self, Read, Write};
use std::process::ExitCode;
use std::rt::Env;

// How many bytes a file may have; what comes after them is not read.
const FILE: u64 = 65536;

// Whether the program is only asked what it does.
fn asks_for_help(rt: &(impl Env + Alloc)) -> io::Result<bool> {
    Ok(
        env::args(rt)?
            .nth(1)
            .is_some_and(|word| word.as_str() == "--help"),
    )
}

fn run(rt: &HostRuntime) -> io::Result<ExitCode> {
    if asks_for_help(rt)? {
        print!(rt; "{HELP}")?;
        return Ok(ExitCode::SUCCESS);
    }
    let mut input = Vec::new(rt.alloc());
    rt.stdin().lock().take(FILE).read_to_end(&mut input)?;
    write_converted(rt.alloc(), &input, &mut io::writer(rt))
}

fn main(rt: HostRuntime) -> io::Result<ExitCode> {
    run(&rt)
}
