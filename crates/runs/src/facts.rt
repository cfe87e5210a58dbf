// Putting the facts of a task into a store.
ghost use Rattle.std.specs.Prelude.{◌≡◌, ℕ, ◌<◌, ◌≤◌, map};
ghost use Rattle.model.specs.Trees.{number};
ghost use Rattle.adl.specs.Held.{tree_of};
ghost use Rattle.protocol.specs.Steps.{put_numbers};

use crate::sheet::Sheet;
use adl::Task;
use store::Store;

// Puts the facts one after the other.
pub(crate) fn put_facts<S: Store>(task: &Task, store: &mut S)
    ensures size { S.extent store.new ≡ S.extent store.old }
    ensures set { S.facts store.new ≡ put_numbers (S.extent store.old) (map (λ f. number (tree_of task.now) f.predicate f.arguments) (tree_of task.now).facts) (S.facts store.old) }
{
    let sheet = Sheet::of(task, &[]);
    let mut at = task.table.sizes.types as usize + task.table.sizes.predicates as usize;
    // each fact tells by the arity of its predicate where the next begins
    for _k in 0..task.table.sizes.facts {
        let predicate = task.table.entries.operands[at];
        let _ = store.put(sheet.atom_number(predicate, at + 1), true);
        at += 1 + task.table.arity(predicate) as usize;
    }
}
