// Instantiating a task: settling what cannot change, and writing its book of ground actions.
#![tactic(auto)]

mod actions;
mod facts;
mod front;
mod growing;
mod instantiating;
mod listing;
mod preface;
mod verdicts;
mod work;

pub use instantiating::instantiate;
