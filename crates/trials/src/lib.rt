// What the programs with recorded output share: the arrays of a table, one entry of it damaged, tables built row by row, and how an answer is told.
#![tactic(auto)]

mod arrays;
mod rows;
mod told;

pub use arrays::{Arrays, Damage, Resize};
pub use rows::Rows;
pub use told::Told;
