// The calls of a book's run.
ghost use Rattle.std.specs.Prelude.{◌≡◌, ℕ, IfOk};
ghost use Rattle.book.specs.Held.{tree_of};
ghost use Rattle.protocol.specs.Names.{name_of};
ghost use Rattle.protocol.specs.Machines.{Begun, begun, Judged, Performed};
ghost use Rattle.protocol.specs.BookCalls.{book_begin, book_holds, book_goal, book_perform, book_machine};

use super::BookRun;
use crate::action::perform_action;
use crate::goal::judge_goal;
use crate::starts::put_starts;
use book::Book;
use fault::{Cause, Fault, Layer};
use protocol::{Name, Run};
use store::{Store, copy, has_places};

// A task's run has calls of its own: it tests whether a name fits before it fills the image, and asks other things of its subject.
impl<'b, 'a> Run for BookRun<'b, 'a> {
    type Of = &'b Book<'a>;

    ghost machine = { λ book. book_machine (tree_of book.now) };

    ghost of = { λ run. run.book };

    ghost steps = { λ run. run.steps };

    // Empties the store, puts the facts that start true, and gives a run with no step taken.
    fn begin<S: Store>(book: &'b Book<'a>, store: &mut S) -> Result<BookRun<'b, 'a>, Fault>
        ensures size { S.extent store.new ≡ S.extent store.old }
        ensures subject { IfOk result (λ run. run.book ≡ book.entry) }
        ensures begun { record { set = S.facts store.new; answer = begun (λ (run : BookRun). run.steps) result } ≡ book_begin (tree_of book.now) (S.extent store.old) (S.facts store.old) }
    {
        has_places(store, book.facts())?;
        store.empty();
        put_starts(book, store);
        Ok(BookRun { book, steps: 0 })
    }

    // Takes the step of the action with this name, or refuses.
    fn perform<S: Store>(
        &mut self,
        store: &mut S,
        image: &mut [u8],
        name: Name,
    ) -> Result<(), Fault>
        ensures subject { self.new.book ≡ self.old.book }
        ensures size { S.extent store.new ≡ S.extent store.old }
        ensures performed { record { steps = self.new.steps; set = S.facts store.new; image = image.new; answer = result }
            ≡ book_perform (tree_of self.old.book.now) (S.extent store.old) self.old.steps (S.facts store.old) image.old (name_of name.entry) }
    {
        let steps = self.steps;
        if steps >= 65535 {
            return Err(Fault::new(Cause::StepLimit, Layer::Run, 65535));
        }
        let book = self.book;
        copy(store, image, book.facts())?;
        if !perform_action(book, image, name, store) {
            return Err(Fault::new(Cause::NotApplicable, Layer::Run, steps as u64));
        }
        self.steps = steps + 1;
        Ok(())
    }

    // Whether the atom is true: by its fact, or by the list of those that are always true.
    fn holds<S: Store>(&self, store: &S, atom: u32) -> Result<bool, Fault>
        ensures { result ≡ book_holds (tree_of self.now.book.now) (S.extent store.now) (S.facts store.now) atom }
    {
        let book = self.book;
        has_places(store, book.facts())?;
        if atom >= book.atoms() {
            return Err(Fault::new(Cause::NoSuchAtom, Layer::Run, atom as u64));
        }
        match book.fact_of(atom) {
            Some(fact) => store.has(fact),
            None => Ok(book.is_always(atom)),
        }
    }

    // Whether the goal is true.
    fn goal<S: Store>(&self, store: &S, image: &mut [u8]) -> Result<bool, Fault>
        ensures { record { image = image.new; answer = result } ≡ book_goal (tree_of self.now.book.now) (S.extent store.now) (S.facts store.now) image.old }
    {
        let book = self.book;
        copy(store, image, book.facts())?;
        Ok(judge_goal(book, image))
    }

    // Takes the run away, and tells the number of steps taken.
    fn end(self) -> u32
        ensures { result ≡ self.entry.steps }
    {
        let BookRun { book: _, steps } = self;
        steps
    }
}
