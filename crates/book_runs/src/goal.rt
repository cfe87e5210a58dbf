// The goal of an opened book.
ghost use Rattle.std.specs.Prelude.{◌≡◌, ℕ, ◌+◌, ◌<◌, ◌≤◌, length};
ghost use Rattle.model.specs.Settling.{ground_value};
ghost use Rattle.book.specs.Held.{tree_of};
ghost use Rattle.protocol.specs.Shown.{shown};

use crate::scene::Scene;
use book::Book;

// The value of the goal in the image.
pub(crate) fn judge_goal(book: &Book, image: &[u8]) -> bool
    ensures { result ≡ ground_value (shown image.now) (tree_of book.now).goal }
{
    let sizes = book.table.sizes;
    let at = sizes.relevant as usize + sizes.always as usize;
    let scene = Scene {
        table: &book.table,
        image,
    };
    let (value, _) = scene.judge(513, at);
    value
}
