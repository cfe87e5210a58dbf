// The calls of a run as values, and what they answer.
use crate::name::Name;
use fault::Fault;

// A call of a run.
#[derive(Clone, Copy)]
pub enum Call<'n> {
    Begin,
    Perform(Name<'n>),
    Holds(u32),
    Goal,
    End,
}

// What a call answers.
#[derive(Clone, Copy, PartialEq, Eq, Debug)]
pub enum Answer {
    // there was no run to call
    NoRun,
    // a run was begun, or a step taken
    Done,
    // the truth of an atom or of the goal
    Told(bool),
    // the steps of a run that was ended
    Count(u32),
    Refused(Fault),
}
