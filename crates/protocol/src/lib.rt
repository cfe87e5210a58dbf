// What the runs of tasks and of books have in common: names of steps, calls as values, and what calls answer.
#![tactic(auto)]

mod answering;
mod calls;
mod image;
mod junction;
mod name;
mod run;

pub use calls::{Answer, Call};
pub use image::shows;
pub use junction::Junction;
pub use name::Name;
pub use run::Run;
