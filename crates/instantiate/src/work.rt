// Memory that serves for one action after the other.
ghost use Rattle.std.specs.Prelude.{◌≡◌, true};
ghost use Rattle.adl.specs.Held.{tree_of};
ghost use Rattle.model.specs.Meaning.{fits};
ghost use Rattle.model.specs.Settling.{named};
ghost use Rattle.protocol.specs.Names.{name_of};

use adl::Task;
use protocol::Name;
use runs::{Draft, Fitting};
use std::alloc::Global;

// The lists of objects that suit an operator, and the action that is being written.
#[derive(Drop)]
pub(crate) struct Work {
    pub(crate) choices: Vec<[u32; 4]>,
    pub(crate) draft: Draft,
}

impl Work {
    pub(crate) fn new(alloc: Global) -> Work {
        Work {
            choices: Vec::new(alloc),
            draft: Draft::new(alloc),
        }
    }
}

// The name with these objects, which fits.
pub(crate) fn fitting<'n, 't, 'a>(
    task: &'t Task<'a>,
    operator: u32,
    objects: &'n [u32],
) -> Fitting<'n, 't, 'a>
    requires { fits (tree_of task.now) (named operator objects.now) ≡ true }
    ensures { (result.task.now ≡ task.now) × (name_of result.name ≡ named operator objects.now) }
{
    let name = Name { operator, objects };
    Fitting { task, name }
}
