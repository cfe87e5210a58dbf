// From the file of a task to the file of its book.
#![tactic(auto)]

mod converting;
mod numbers;
mod reading;
mod theorems;
mod writing;

pub use converting::{Lent, convert};
pub use reading::{check_book_file, check_task_file, read_book_file, read_task_file};
pub use theorems::{what_is_read_is_written_again, what_is_written_is_read_back};
