// Making and loading a task.
ghost use Rattle.std.specs.Prelude.{◌≡◌, ◌≤◌, IfOk, MatchResult};
ghost use Rattle.model.specs.Trees.{atoms as atoms_in};
ghost use Rattle.table.specs.Answers.{whether};
ghost use Rattle.adl.specs.Reads.{task};
ghost use Rattle.adl.specs.Loads.{done, loads, given, blank};
ghost use Rattle.adl.specs.Views.{table as table_in};
ghost use Rattle.adl.specs.Held.{held, tree_of};
ghost use Rattle.adl.specs.Records.{Placed};

use super::Task;
use crate::declare::{Places, check_facts, check_operators, check_predicates, check_types};
use crate::operator_places::OperatorPlaces;
use crate::reader::Reader;
use crate::sizes::Sizes;
use crate::task_table::TaskTable;
use fault::{Cause, Fault, Layer};
use table::Entries;

// The entries, first to last: how many atoms there are and where the parts of the task begin, or the first fault.
fn check_entries(table: &TaskTable) -> Result<Places, Fault>
    ensures same { whether result ≡ done (task (table_in table.now)) }
    ensures placed { IfOk result (Placed (table_in table.now)) }
{
    let predicates_at = check_types(table)?;
    let predicates = check_predicates(table, predicates_at)?;
    let goal_at = check_facts(table, predicates.end)?;
    let operators_at = Reader::outermost(table, 0, goal_at).check_formula(256, goal_at)?;
    let operators = check_operators(table, operators_at)?;
    if operators.end < table.sizes.entries as usize {
        return Err(Fault::new(Cause::EntriesMismatch, Layer::Task, operators.end as u64));
    }
    Ok(Places {
        atoms: predicates.atoms,
        goal_at,
        operators,
    })
}

impl<'a> Task<'a> {
    // A record that holds one entry, TRUE.
    pub fn new() -> Task<'a>
        ensures { tree_of result ≡ blank }
    {
        let sizes = Sizes {
            objects: 1,
            types: 0,
            predicates: 0,
            facts: 0,
            operators: 0,
            entries: 1,
        };
        let entries = Entries {
            count: 1,
            // TRUE, by its code: a constant that is lent for as long as the record lasts
            kinds: &[0],
            operands: &[0],
        };
        let none = OperatorPlaces {
            start: 0,
            effect: 0,
        };
        Task {
            table: TaskTable { sizes, entries },
            atoms: 0,
            goal_at: 0,
            operators: [none; 32],
        }
    }

    // Fills the record with the task that stands in the arrays; a refusal leaves it as it was.
    pub fn load(&mut self, sizes: Sizes, kinds: &'a [u8], operands: &'a [u32]) -> Result<(), Fault>
        ensures answers { result ≡ loads sizes kinds.now operands.now }
        ensures fills { MatchResult result (λ _. held self.new ≡ given sizes kinds.now operands.now) (λ _. self.new ≡ self.old) }
    {
        let table = TaskTable::new(sizes, kinds, operands)?;
        let places = check_entries(&table)?;
        let operators = places.operators.places;
        *self = Task {
            table,
            atoms: places.atoms,
            goal_at: places.goal_at,
            operators,
        };
        Ok(())
    }

    // How many atoms the task has.
    pub fn atoms(&self) -> u32
        ensures { result ≡ atoms_in (tree_of self.now) }
    {
        self.atoms
    }
}
