// A well-formed task, borrowed from the caller's arrays, with the places where its parts begin.
ghost use Rattle.std.specs.Prelude.{◌≡◌, true, map, take};
ghost use Rattle.model.specs.Trees.{atoms as atoms_in};
ghost use Rattle.adl.specs.Reads.{goal_place, operator_places};
ghost use Rattle.adl.specs.Kept.{places_from};
ghost use Rattle.adl.specs.Loads.{accepted, task_of};
ghost use Rattle.adl.specs.Views.{table as table_in};

use crate::operator_places::OperatorPlaces;
use crate::task_table::TaskTable;

#[derive(Clone, Copy)]
pub struct Task<'a> {
    pub table: TaskTable<'a>,
    // how many atoms the task has
    pub atoms: u32,
    // where the goal begins
    pub goal_at: usize,
    // as many places as a task may have operators, since nothing here allocates
    pub operators: [OperatorPlaces; 32],
    ghost formed: { accepted (table_in table) ≡ true },
    ghost counted: { atoms ≡ atoms_in (task_of (table_in table)) },
    ghost goal: { goal_at ≡ goal_place (table_in table) },
    ghost placed: { take table.sizes.operators operators ≡ map (places_from (table_in table)) (operator_places (table_in table)) },
}

pub mod calls;
