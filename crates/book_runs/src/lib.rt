// Runs of books: judging ground formulas, taking steps, the calls of a run.
#![tactic(auto)]

mod action;
mod entries;
mod goal;
mod judge;
mod literals;
mod names;
mod run;
mod scene;
mod skip;
mod starts;
mod step;

pub use run::BookRun;
