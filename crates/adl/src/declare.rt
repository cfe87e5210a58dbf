// Checking the declarations, the facts and the operators of a task table.
ghost use Rattle.std.specs.Prelude.{◌≡◌, ℕ, ◌+◌, ◌-◌, ◌<◌, ◌≤◌, List, map, take, IfOk};
ghost use Rattle.model.specs.Trees.{atoms_of};
ghost use Rattle.table.specs.Reading.{good, series, many, starts};
ghost use Rattle.adl.specs.Reads.{operand_at, type_set, with_atoms, predicate, fact, operator, effect_place};
ghost use Rattle.adl.specs.Kept.{places_from};
ghost use Rattle.adl.specs.Views.{table as table_in, answer};
ghost use Rattle.adl.specs.Ends.{predicates_end, operator_end, operators_end};

use crate::operator_places::OperatorPlaces;
use crate::reader::Reader;
use crate::task_table::TaskTable;
use fault::{Cause, Fault, Layer};
use table::{Place, power};

// The place is passed beside the table, since each check answers with a place.

// A type or a parameter, one entry at place `at`.
fn check_single(table: &TaskTable, place: Place, at: usize) -> Result<usize, Fault>
    ensures { result ≡ answer (operand_at (table_in table.now) place at) }
{
    let _ = Reader::outermost(table, 0, at).head_at(place, at)?;
    Ok(at + 1)
}

// So many of them, from place `at`.
fn check_row(table: &TaskTable, place: Place, count: u32, at: usize) -> Result<usize, Fault>
    ensures { result ≡ answer (many (operand_at (table_in table.now) place) count at) }
{
    let mut next = at;
    for _ in 0..count {
        next = check_single(table, place, next)?;
    }
    Ok(next)
}

// The types, from the first entry on.
pub(crate) fn check_types(table: &TaskTable) -> Result<usize, Fault>
    ensures { result ≡ answer (many (type_set (table_in table.now)) table.now.sizes.types 0) }
{
    check_row(table, Place::TypeSet, table.sizes.types, 0)
}

// The predicates that were checked: how many atoms they have, and the place after them.
#[derive(Clone, Copy)]
pub(crate) struct Predicates {
    pub(crate) atoms: u32,
    pub(crate) end: usize,
}

// One predicate: the number of atoms of those before it and its own.
fn check_predicate(table: &TaskTable, before: u32, at: usize) -> Result<Predicates, Fault>
    requires { before ≤ 65536 }
    ensures same { predicates_end result ≡ answer (predicate (table_in table.now) before at) }
    ensures counted { IfOk result (λ p. ((a j : ℕ) → predicate (table_in table.now) before at ≡ good a j → p.atoms ≡ with_atoms (table_in table.now) before a)) }
    ensures few { IfOk result (λ p. p.atoms ≤ 65536) }
{
    let head = Reader::outermost(table, 0, at).head_at(Place::Predicate, at)?;
    let own = power(table.sizes.objects, head.operand).unwrap();
    if before + own > 65536 {
        return Err(Fault::new(Cause::TooManyAtoms, Layer::Task, at as u64));
    }
    Ok(Predicates {
        atoms: before + own,
        end: at + 1,
    })
}

// The predicates, from place `at`.
pub(crate) fn check_predicates(table: &TaskTable, at: usize) -> Result<Predicates, Fault>
    ensures same { predicates_end result ≡ answer (series (predicate (table_in table.now)) (with_atoms (table_in table.now)) table.now.sizes.predicates 0 at) }
    ensures counted { IfOk result (λ p. ((ps : List ℕ) (j : ℕ) → series (predicate (table_in table.now)) (with_atoms (table_in table.now)) table.now.sizes.predicates 0 at ≡ good ps j → p.atoms ≡ atoms_of table.now.sizes.objects ps)) }
    ensures few { IfOk result (λ p. p.atoms ≤ 65536) }
{
    let mut so_far = Predicates { atoms: 0, end: at };
    for _ in 0..table.sizes.predicates {
        so_far = check_predicate(table, so_far.atoms, so_far.end)?;
    }
    Ok(so_far)
}

fn check_fact(table: &TaskTable, at: usize) -> Result<usize, Fault>
    ensures { result ≡ answer (fact (table_in table.now) at) }
{
    let reader = Reader::outermost(table, 0, at);
    let head = reader.head_at(Place::Fact, at)?;
    reader.check_terms(head.operand, at + 1)
}

// The facts, from place `at`.
pub(crate) fn check_facts(table: &TaskTable, at: usize) -> Result<usize, Fault>
    ensures { result ≡ answer (many (fact (table_in table.now)) table.now.sizes.facts at) }
{
    let mut next = at;
    for _ in 0..table.sizes.facts {
        next = check_fact(table, next)?;
    }
    Ok(next)
}

// An operator that was checked: where its effect begins, and the place after it.
#[derive(Clone, Copy)]
pub(crate) struct Checked {
    pub(crate) effect: usize,
    pub(crate) end: usize,
}

fn check_operator(table: &TaskTable, at: usize) -> Result<Checked, Fault>
    ensures same { operator_end result ≡ answer (operator (table_in table.now) at) }
    ensures effect { IfOk result (λ o. o.effect ≡ effect_place (table_in table.now) at) }
{
    let head = Reader::outermost(table, 0, at).head_at(Place::Operator, at)?;
    let precondition = check_row(table, Place::Parameter, head.operand, at + 1)?;
    let effect = Reader::outermost(table, head.operand, precondition).check_formula(
        256,
        precondition,
    )?;
    let end = Reader::outermost(table, head.operand, effect).check_effect(256, effect)?;
    Ok(Checked { effect, end })
}

// The operators that were checked: where each begins and where its effect does, and the place after them.
#[derive(Clone, Copy)]
pub(crate) struct Operators {
    // as many as a task may have, since nothing here allocates
    pub(crate) places: [OperatorPlaces; 32],
    pub(crate) end: usize,
}

// The operators, from place `at`.
pub(crate) fn check_operators(table: &TaskTable, at: usize) -> Result<Operators, Fault>
    ensures same { operators_end result ≡ answer (many (operator (table_in table.now)) table.now.sizes.operators at) }
    ensures places { IfOk result (λ o. take table.now.sizes.operators o.places ≡ map (places_from (table_in table.now)) (starts (operator (table_in table.now)) table.now.sizes.operators at)) }
{
    let none = OperatorPlaces {
        start: 0,
        effect: 0,
    };
    let mut all = Operators {
        places: [none; 32],
        end: at,
    };
    // by index: the proof of a loop over iter_mut would not know what it has written
    for i in 0..table.sizes.operators as usize {
        let one = check_operator(table, all.end)?;
        all.places[i] = OperatorPlaces {
            start: all.end,
            effect: one.effect,
        };
        all.end = one.end;
    }
    Ok(all)
}

// How many atoms a task has, and where its parts begin.
#[derive(Clone, Copy)]
pub(crate) struct Places {
    pub(crate) atoms: u32,
    pub(crate) goal_at: usize,
    pub(crate) operators: Operators,
}
