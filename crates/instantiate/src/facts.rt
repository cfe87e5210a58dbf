// The facts of a task, as bits.
ghost use Rattle.std.specs.Prelude.{◌≡◌, IfOk};
ghost use Rattle.store.specs.Packed.{facts_of, size_of};
ghost use Rattle.store.specs.Sets.{none};
ghost use Rattle.adl.specs.Held.{tree_of};
ghost use Rattle.model.specs.Meaning.{is_fact};

use adl::Task;
use protocol::Run;
use runs::TaskRun;
use store::{Bits, Store};

// Puts the facts into the store, which has 65,536 places: they are what a run begins with.
pub(crate) fn put_first(task: &Task, store: &mut Bits)
    requires { size_of store.old ≡ 65536 }
    ensures { facts_of store.new ≡ is_fact (tree_of task.now) }
{
    if let Ok(run) = TaskRun::begin(task, store) {
        run.end();
    }
}

// Whether the store holds the atom.
pub(crate) fn holds(store: &Bits, atom: u32) -> bool
    ensures { result ≡ facts_of store.now atom }
{
    store.has(atom).unwrap_or(false)
}
