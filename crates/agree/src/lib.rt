// Playing one list of calls on a task and on a book, with the promise that the two agree where the book is the task's.
#![tactic(auto)]

mod both;

pub use both::play_both;
