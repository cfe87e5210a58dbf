// Performing the action with a name.
ghost use Rattle.std.specs.Prelude.{◌≡◌, ℕ, ◌+◌, ◌<◌, ◌≤◌, length, if◌then◌else◌};
ghost use Rattle.model.specs.Books.{find};
ghost use Rattle.book.specs.Held.{tree_of};
ghost use Rattle.protocol.specs.Names.{name_of};
ghost use Rattle.protocol.specs.Shown.{shown};
ghost use Rattle.protocol.specs.Steps.{put_step};
ghost use Rattle.book_runs.specs.Runs.{is_taken, literals_taken};

use crate::names::after_objects;
use crate::scene::Scene;
use book::Book;
use protocol::Name;
use store::Store;

// Judges the precondition of the action with this name in the image and, if it is true, takes the step; tells whether, which is no for a name that
// the book does not have too: the caller has one refusal for both.
pub(crate) fn perform_action<S: Store>(book: &Book, image: &[u8], name: Name, store: &mut S) -> bool
    ensures size { S.extent store.new ≡ S.extent store.old }
    ensures judged { result ≡ is_taken (shown image.now) (find (name_of name.entry) (tree_of book.now).actions) }
    ensures set { S.facts store.new ≡ (if result then put_step (S.extent store.old) (literals_taken (shown image.now) (find (name_of name.entry) (tree_of book.now).actions)) (S.facts store.old) else S.facts store.old) }
{
    let Some(number) = book.find(name) else {
        return false;
    };
    // no unwrap: that the action has a place is shown from what its absence would say
    let Some(at) = book.action_at(number) else {
        unreachable()
    };
    let precondition = after_objects(&book.table, at + 1);
    let scene = Scene {
        table: &book.table,
        image,
    };
    scene.attempt(precondition, store)
}
