// What the runs of a worked task and of its book answer.
ghost use Rattle.std.specs.Prelude.{◌≡◌, length, take};
ghost use Rattle.adl.specs.Held.{tree_of as task_in};
ghost use Rattle.book.specs.Held.{tree_of as book_in};
ghost use Rattle.worked.specs.Calls.{calls, in_task, in_book};
ghost use Rattle.worked.specs.ComingOut.{the_task, the_book};

use adl::Task;
use book::Book;
use book_runs::BookRun;
use play::play;
use protocol::Answer;
use runs::TaskRun;
use store::Bits;
use worked::Case;

// The most calls of a worked task.
pub(crate) const MOST: usize = 12;

// Those of the task's run.
pub(crate) fn answers_of_task(case: Case, task: &Task) -> [Answer; MOST]
    requires { task_in task.now ≡ the_task case }
    ensures { take (length (calls case)) result ≡ in_task case }
{
    let mut answers = [Answer::NoRun; MOST];
    let mut bytes = [0; 1];
    let mut image = [0; 8];
    let mut store = Bits::over(&mut bytes);
    let _ = play::<TaskRun, _>(task, &mut store, &mut image, case.calls(), &mut answers);
    answers
}

// Those of its book's run. One function over any run could not say in its contract which of the two lists comes out.
pub(crate) fn answers_of_book(case: Case, book: &Book) -> [Answer; MOST]
    requires { book_in book.now ≡ the_book case }
    ensures { take (length (calls case)) result ≡ in_book case }
{
    let mut answers = [Answer::NoRun; MOST];
    let mut bytes = [0; 1];
    let mut image = [0; 8];
    let mut store = Bits::over(&mut bytes);
    let _ = play::<BookRun, _>(book, &mut store, &mut image, case.calls(), &mut answers);
    answers
}
