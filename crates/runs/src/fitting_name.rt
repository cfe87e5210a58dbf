// A name that fits a task.
ghost use Rattle.std.specs.Prelude.{◌≡◌, true, false, MatchOption};
ghost use Rattle.model.specs.Meaning.{fits as fits_task};
ghost use Rattle.protocol.specs.Names.{name_of};
ghost use Rattle.adl.specs.Held.{tree_of};

use crate::fitting::fits;
use adl::Task;
use protocol::Name;

// Its operator exists, and its objects are as many as the parameters, of their types, and all differ.
#[derive(Clone, Copy)]
pub struct Fitting<'n, 't, 'a> {
    pub task: &'t Task<'a>,
    pub name: Name<'n>,
    ghost fits: { fits_task (tree_of task.now) (name_of name) ≡ true },
}

impl<'n, 't, 'a> Fitting<'n, 't, 'a> {
    // The name, if it fits.
    pub fn of(task: &'t Task<'a>, name: Name<'n>) -> Option<Fitting<'n, 't, 'a>>
        ensures { MatchOption result (fits_task (tree_of task.now) (name_of name.entry) ≡ false) (λ f. (f.task ≡ task.entry) × (f.name ≡ name.entry)) }
    {
        if !fits(task, name) {
            return None;
        }
        Some(Fitting { task, name })
    }
}
