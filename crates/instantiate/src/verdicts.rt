// The verdicts of both rounds, one for each atom.
ghost use Rattle.std.specs.Prelude.{◌≡◌, ◌+◌, ◌<◌, true, false, not, map, take, IfOk, slice_index_or};
ghost use Rattle.model.specs.Lists.{below};
ghost use Rattle.model.specs.Settling.{inertia, round_one, round_two};
ghost use Rattle.model.specs.Trees.{atoms_of};
ghost use Rattle.adl.specs.Held.{tree_of};
ghost use Rattle.runs.specs.Settled.{round_of};
ghost use Rattle.rising.specs.Items.{items};
ghost use Rattle.store.specs.Packed.{facts_of};
ghost use Rattle.book_of_task.specs.Becoming.{SameBecoming};
ghost use Rattle.instantiate.specs.Listing.{Lists};
ghost use Rattle.instantiate.specs.Outcome.{literals_one};
ghost use Rattle.instantiate.specs.Verdicts.{judged, told_one, FactsIn};

use crate::facts::holds;
use adl::Task;
use rising::{Literal, Rising, Sign};
use runs::{Touched, Verdict};
use std::alloc::{AllocError, Global};
use store::Bits;
use table::power;

// An atom that can change becomes a fact; another keeps the truth that it has first.
fn judge(is_fact: bool, can_change: bool, fact: u32) -> Verdict
    ensures { result ≡ judged is_fact can_change fact }
{
    if can_change {
        Verdict::Fact(fact)
    } else {
        Verdict::Always(is_fact)
    }
}

// Appends the verdicts of a predicate's atoms in round one, the first of which has the number `first`: a fact can change if some effect
// deletes the predicate, another atom if some effect adds it. Tells the number after the last.
fn append_predicate(
    task: &Task,
    touched: &Touched,
    facts: &Bits,
    predicate: u32,
    first: u32,
    out: &mut Vec<Verdict>,
) -> Result<u32, AllocError>
    requires known { predicate < task.now.table.sizes.predicates }
    requires facts { FactsIn (tree_of task.now) (facts_of facts.now) }
    requires added { slice_index_or touched.now.added predicate false ≡ not (inertia (tree_of task.now) true predicate) }
    requires deleted { slice_index_or touched.now.deleted predicate false ≡ not (inertia (tree_of task.now) false predicate) }
    requires first { first ≡ atoms_of (tree_of task.now).objects (take predicate (tree_of task.now).arities) }
    requires told { out.old.items ≡ map (told_one (tree_of task.now)) (below first) }
    ensures { IfOk result (λ n. (n ≡ atoms_of (tree_of task.now).objects (take (predicate + 1) (tree_of task.now).arities))
        × (out.new.items ≡ map (told_one (tree_of task.now)) (below n))) }
{
    let atoms = power(task.table.sizes.objects, task.table.arity(predicate)).unwrap();
    for i in 0..atoms {
        let atom = first + i;
        let is_fact = holds(facts, atom);
        let can_change = if is_fact {
            touched.deleted[predicate as usize]
        } else {
            touched.added[predicate as usize]
        };
        // in round one a fact is the atom itself
        out.push(judge(is_fact, can_change, atom))?;
    }
    Ok(first + atoms)
}

// The verdicts of round one.
pub(crate) fn verdicts_one(
    alloc: Global,
    task: &Task,
    facts: &Bits,
) -> Result<Vec<Verdict>, AllocError>
    requires { FactsIn (tree_of task.now) (facts_of facts.now) }
    ensures { IfOk result (λ vs. SameBecoming (round_of vs.items) (round_one (tree_of task.now))) }
{
    let touched = Touched::by(task);
    let mut verdicts = Vec::new(alloc);
    let mut first = 0;
    for predicate in 0..task.table.sizes.predicates {
        first = append_predicate(task, &touched, facts, predicate, first, &mut verdicts)?;
    }
    Ok(verdicts)
}

// The verdicts of round two, by the literals of round one.
pub(crate) fn verdicts_two(
    alloc: Global,
    task: &Task,
    facts: &Bits,
    listed: &Rising<Literal>,
) -> Result<Vec<Verdict>, AllocError>
    requires facts { FactsIn (tree_of task.now) (facts_of facts.now) }
    requires listed { Lists (items listed.now) (literals_one (tree_of task.now)) }
    ensures { IfOk result (λ vs. SameBecoming (round_of vs.items) (round_two (tree_of task.now))) }
{
    let mut verdicts = Vec::new(alloc);
    let mut fact = 0;
    for atom in 0..task.atoms {
        let is_fact = holds(facts, atom);
        let sign = if is_fact { Sign::Deletes } else { Sign::Adds };
        let can_change = listed.find(&Literal { atom, sign }).is_ok();
        verdicts.push(judge(is_fact, can_change, fact))?;
        fact += u32::from(can_change);
    }
    Ok(verdicts)
}
