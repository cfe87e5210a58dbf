// Theorems on the book of a task: each function's contract names one.
#![tactic(auto)]

ghost use Rattle.book_of_task.specs.Becoming.{SimplifyingRestsOnWhatAtomsBecome};
ghost use Rattle.book_of_task.specs.Clashes.{NoLiteralClashes};
ghost use Rattle.book_of_task.specs.Opening.{BooksOfTasksOpen};

pub fn simplifying_rests_on_what_atoms_become()
    ensures { SimplifyingRestsOnWhatAtomsBecome }
{}

pub fn no_literal_clashes()
    ensures { NoLiteralClashes }
{}

pub fn books_of_tasks_open()
    ensures { BooksOfTasksOpen }
{}
