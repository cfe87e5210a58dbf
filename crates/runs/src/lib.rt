// Runs of planning tasks: judging formulas, taking steps, the calls of a run.
#![tactic(auto)]

mod action;
mod choices;
mod clauses;
mod closing;
mod counts;
mod draft;
mod facts;
mod fitting;
mod fitting_name;
mod goal;
mod judge;
mod numbering;
mod run;
mod settling;
mod sheet;
mod simplify;
mod skip;
mod skip_effect;
mod step;
mod touched;
mod verdict;
mod walk;
mod window;

pub use action::write_goal;
pub use choices::list_choices;
pub use counts::sum_of_counts;
pub use draft::{Draft, Stop};
pub use fitting_name::Fitting;
pub use protocol::{Answer, Call, Name};
pub use run::TaskRun;
pub use touched::Touched;
pub use verdict::{Verdict, verdict_of};
