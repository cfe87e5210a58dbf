// Planning tasks in ADL: their tables, and loading them.
#![tactic(auto)]

mod declare;
pub mod operator_places;
mod reader;
pub mod sizes;
pub mod task;
pub mod task_table;

pub use sizes::Sizes;
pub use task::Task;
pub use task_table::TaskTable;
