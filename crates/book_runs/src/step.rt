// Taking the step of an action.
ghost use Rattle.std.specs.Prelude.{◌≡◌, ℕ, ◌+◌, ◌<◌, ◌≤◌, true, if◌then◌else◌};
ghost use Rattle.table.specs.Answers.{is_good};
ghost use Rattle.table.specs.Reading.{next_place};
ghost use Rattle.model.specs.Books.{action_literals};
ghost use Rattle.book.specs.Reads.{ground, clause, effect};
ghost use Rattle.protocol.specs.Steps.{put_literals, put_step};
ghost use Rattle.book_runs.specs.Scenes.{state_in, table_in};
ghost use Rattle.book_runs.specs.Standing.{value_in, items_in, literals_in};

use crate::entries::is_kind;
use crate::literals::{literal_end, put_literal, put_literals};
use crate::scene::Scene;
use store::Store;
use table::Kind;

impl Scene<'_> {
    // Puts what the part of an effect at place `at` adds, or deletes, its condition judged; tells the place after it.
    fn put_clause<S: Store>(&self, at: usize, store: &mut S, adds: bool) -> usize
        requires { is_good (clause (table_in self.now) at) ≡ true }
        ensures end { result ≡ next_place (clause (table_in self.now) at) }
        ensures size { S.extent store.new ≡ S.extent store.old }
        ensures set { S.facts store.new ≡ put_literals (S.extent store.old) adds (literals_in (state_in self.now) (clause (table_in self.now) at)) (S.facts store.old) }
    {
        if is_kind(self.table, at, Kind::When) {
            let (holds, literals) = self.judge(511, at + 1);
            return put_literals(self.table, literals, store, adds, holds);
        }
        put_literal(self.table, at, store, adds);
        literal_end(self.table, at)
    }

    // Puts what the effect at place `at` adds, or deletes.
    // `adds` is the value that is put, which a store takes and the definition of puts goes by; a struct of it and the store would have to promise
    // everywhere that it stays.
    fn put_effect<S: Store>(&self, at: usize, store: &mut S, adds: bool)
        requires { is_good (effect (table_in self.now) at) ≡ true }
        ensures size { S.extent store.new ≡ S.extent store.old }
        ensures set { S.facts store.new ≡ put_literals (S.extent store.old) adds (action_literals (state_in self.now) (items_in (effect (table_in self.now) at))) (S.facts store.old) }
    {
        let table = self.table;
        let mut next = at + 1;
        // downwards, as the proof speaks of what is left
        for _ in (0..table.entries.operands[at]).rev() {
            next = self.put_clause(next, store, adds);
        }
    }

    // Takes the step of the effect at place `at`: all that it deletes, then all that it adds.
    fn take_step<S: Store>(&self, at: usize, store: &mut S)
        requires { is_good (effect (table_in self.now) at) ≡ true }
        ensures size { S.extent store.new ≡ S.extent store.old }
        ensures set { S.facts store.new ≡ put_step (S.extent store.old) (action_literals (state_in self.now) (items_in (effect (table_in self.now) at))) (S.facts store.old) }
    {
        let (first, last) = (false, true);
        self.put_effect(at, store, first);
        self.put_effect(at, store, last);
    }

    // Judges the precondition at place `at` and, if it is true, takes the step of the effect after it; tells whether.
    pub(crate) fn attempt<S: Store>(&self, at: usize, store: &mut S) -> bool
        requires stands { is_good (ground (table_in self.now) 513 at) ≡ true }
        requires effect { is_good (effect (table_in self.now) (next_place (ground (table_in self.now) 513 at))) ≡ true }
        ensures size { S.extent store.new ≡ S.extent store.old }
        ensures judged { result ≡ value_in (state_in self.now) (ground (table_in self.now) 513 at) }
        ensures set { S.facts store.new ≡ (if result then put_step (S.extent store.old) (action_literals (state_in self.now) (items_in (effect (table_in self.now) (next_place (ground (table_in self.now) 513 at))))) (S.facts store.old) else S.facts store.old) }
    {
        let (applicable, effect) = self.judge(513, at);
        if applicable {
            self.take_step(effect, store);
        }
        applicable
    }
}
