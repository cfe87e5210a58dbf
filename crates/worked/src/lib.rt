// The worked tasks: small tasks, what loading, instantiating and opening make of each, and what its run and its book's run answer.
#![tactic(auto)]

ghost use Rattle.worked.specs.ComingOut.{WorkedTasksComeOut};
ghost use Rattle.worked.specs.Agreeing.{WorkedTasksAreAgreedOn};
ghost use Rattle.worked.specs.Files.{WorkedFilesComeOut};

mod books;
mod case;
mod playing;
mod tasks;
mod written;

pub use case::Case;
pub use written::Written;

// The theorem on all of them.
pub fn worked_tasks_come_out()
    ensures { WorkedTasksComeOut }
{}

// The theorem on their files.
pub fn worked_files_come_out()
    ensures { WorkedFilesComeOut }
{}

// The agreement of both runs, on all of them.
pub fn worked_tasks_are_agreed_on()
    ensures { WorkedTasksAreAgreedOn }
{}
