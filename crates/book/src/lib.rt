// Books of ground actions: their tables, opening them, and finding an action by its name.
#![tactic(auto)]

pub mod book;
pub mod book_table;
mod check;
mod effects;
mod find;
mod groups;
mod head;
mod names;
mod opening;
pub mod sizes;

pub use book::Book;
pub use book_table::BookTable;
pub use sizes::Sizes;
