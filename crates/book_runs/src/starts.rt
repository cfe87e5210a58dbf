// Putting the facts that start true into a store.
ghost use Rattle.std.specs.Prelude.{◌≡◌, ℕ, ◌<◌, ◌≤◌};
ghost use Rattle.model.specs.Books.{first_facts};
ghost use Rattle.model.specs.Lists.{below, keep};
ghost use Rattle.book.specs.Held.{tree_of};
ghost use Rattle.protocol.specs.Steps.{put_numbers};
ghost use Rattle.protocol.specs.BookCalls.{facts};

use crate::entries::is_kind;
use book::Book;
use store::Store;
use table::Kind;

// Whether the fact starts true.
fn starts_true(book: &Book, fact: u32) -> bool
    requires { fact < book.now.table.sizes.relevant }
    ensures { result ≡ first_facts (tree_of book.now) fact }
{
    is_kind(&book.table, fact as usize, Kind::StartsTrue)
}

// Puts the facts that start true, rising.
pub(crate) fn put_starts<S: Store>(book: &Book, store: &mut S)
    ensures size { S.extent store.new ≡ S.extent store.old }
    ensures set { S.facts store.new ≡ put_numbers (S.extent store.old) (keep (first_facts (tree_of book.now)) (below (facts (tree_of book.now)))) (S.facts store.old) }
{
    // Tried with `filter`: the proof that it leaves out no fact did not close.
    for fact in 0..book.table.sizes.relevant {
        if starts_true(book, fact) {
            let _ = store.put(fact, true);
        }
    }
}
