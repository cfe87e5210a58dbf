// Putting the literals of an effect into a store.
ghost use Rattle.std.specs.Prelude.{◌≡◌, ℕ, ◌+◌, ◌<◌, ◌≤◌, true, [], ◌∷◌, if◌then◌else◌};
ghost use Rattle.table.specs.Answers.{is_good};
ghost use Rattle.table.specs.Reading.{next_place};
ghost use Rattle.book.specs.Reads.{literals};
ghost use Rattle.book.specs.Views.{table as table_in};
ghost use Rattle.protocol.specs.Steps.{put_literals};
ghost use Rattle.book_runs.specs.Standing.{items_in, literal_at, literal_end};

use crate::entries::is_kind;
use book::BookTable;
use store::Store;
use table::Kind;

// The place after the literal at place `at`.
pub(crate) fn literal_end(table: &BookTable, at: usize) -> usize
    requires { at < table.now.sizes.entries }
    ensures { result ≡ literal_end (table_in table.now) at }
{
    if is_kind(table, at, Kind::Not) {
        at + 2
    } else {
        at + 1
    }
}

// Puts the literal at place `at`, if it adds or deletes as is asked for. `adds` is the value that is put: a store takes it, and the definition of puts
// goes by it, so a sign would be turned into it at each use.
pub(crate) fn put_literal<S: Store>(table: &BookTable, at: usize, store: &mut S, adds: bool)
    requires { literal_end (table_in table.now) at ≤ table.now.sizes.entries }
    ensures size { S.extent store.new ≡ S.extent store.old }
    ensures set { S.facts store.new ≡ put_literals (S.extent store.old) adds (literal_at (table_in table.now) at ∷ []) (S.facts store.old) }
{
    let last = literal_end(table, at) - 1;
    if is_kind(table, at, Kind::Not) != adds {
        let _ = store.put(table.entries.operands[last], adds);
    }
}

// Goes through the literals at place `at` to the place after them, which is wanted either way, and puts those that are asked for if the condition
// holds.
pub(crate) fn put_literals<S: Store>(
    table: &BookTable,
    at: usize,
    store: &mut S,
    adds: bool,
    holds: bool,
) -> usize
    requires { is_good (literals (table_in table.now) at) ≡ true }
    ensures end { result ≡ next_place (literals (table_in table.now) at) }
    ensures size { S.extent store.new ≡ S.extent store.old }
    ensures set { S.facts store.new ≡ put_literals (S.extent store.old) adds (if holds then items_in (literals (table_in table.now) at) else []) (S.facts store.old) }
{
    let mut next = at + 1;
    // downwards, as the proof speaks of what is left
    for _ in (0..table.entries.operands[at]).rev() {
        if holds {
            put_literal(table, next, store, adds);
        }
        next = literal_end(table, next);
    }
    next
}
