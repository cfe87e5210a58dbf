// Playing one list of calls on a task and on a book.
ghost use Rattle.std.specs.Prelude.{◌≡◌, ℕ, ◌<◌, ◌≤◌, ◌⊎◌, length, IsOk, IsErr, OnOk, OnErr};
ghost use Rattle.adl.specs.Held.{tree_of as task_of};
ghost use Rattle.book.specs.Held.{tree_of as book_of};
ghost use Rattle.protocol.specs.Machines.{unbegun, Played};
ghost use Rattle.protocol.specs.TaskCalls.{task_machine};
ghost use Rattle.protocol.specs.BookCalls.{book_machine};
ghost use Rattle.agreement.specs.Agreement.{Room, BeginsFirst, EachCallAgrees};
ghost use Rattle.agree.specs.Sides.{MadeFrom, AnswersAgree};

use adl::Task;
use book::Book;
use book_runs::BookRun;
use play::{TooFewPlaces, play};
use protocol::{Answer, Call};
use runs::TaskRun;
use store::Store;

// Plays the calls one after the other on a task and on a book, each over its own store and image, and writes what each answers;
// does nothing where either array has fewer places for answers than there are calls.
// A struct of a store, an image and answers for each side was tried: what they are at the return has no names in a clause then.
pub fn play_both<S: Store, R: Store>(
    task: &Task,
    task_store: &mut S,
    task_image: &mut [u8],
    task_answers: &mut [Answer],
    book: &Book,
    book_store: &mut R,
    book_image: &mut [u8],
    book_answers: &mut [Answer],
    calls: &[Call],
) -> Result<(), TooFewPlaces>
    ensures sizes { (S.extent task_store.new ≡ S.extent task_store.old) × (R.extent book_store.new ≡ R.extent book_store.old) }
    ensures short { (length task_answers.old < length calls.now) ⊎ (length book_answers.old < length calls.now) → IsErr result }
    ensures long { length calls.now ≤ length task_answers.old → length calls.now ≤ length book_answers.old → IsOk result }
    ensures nothing { OnErr result (
        (task_store.new ≡ task_store.old) × (task_image.new ≡ task_image.old) × (task_answers.new ≡ task_answers.old)
        × (book_store.new ≡ book_store.old) × (book_image.new ≡ book_image.old) × (book_answers.new ≡ book_answers.old)) }
    ensures task { OnOk result (Played (task_machine (task_of task.now) (S.extent task_store.old)) (unbegun (S.facts task_store.old) task_image.old) calls.now task_answers.old
        (S.facts task_store.new) task_image.new task_answers.new) }
    ensures book { OnOk result (Played (book_machine (book_of book.now) (R.extent book_store.old)) (unbegun (R.facts book_store.old) book_image.old) calls.now book_answers.old
        (R.facts book_store.new) book_image.new book_answers.new) }
    ensures agree { OnOk result (MadeFrom task.now book.now
        → Room (task_of task.now) (S.extent task_store.old) (R.extent book_store.old) task_image.old book_image.old
        → BeginsFirst calls.now
        → EachCallAgrees (task_of task.now) (S.extent task_store.old) (R.extent book_store.old) (S.facts task_store.old) (R.facts book_store.old) task_image.old book_image.old calls.now
        × AnswersAgree (task_of task.now) calls.now task_answers.new book_answers.new) }
{
    if task_answers.len() < calls.len() || book_answers.len() < calls.len() {
        return Err(TooFewPlaces);
    }
    play::<TaskRun, _>(task, task_store, task_image, calls, task_answers)?;
    play::<BookRun, _>(book, book_store, book_image, calls, book_answers)?;
    Ok(())
}
