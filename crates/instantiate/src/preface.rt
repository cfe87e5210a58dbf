// The entries of a book before its actions: the relevant atoms, those that are always true, and the goal.
ghost use Rattle.std.specs.Prelude.{◌≡◌, ◌++◌, map, length, IfOk};
ghost use Rattle.adl.specs.Held.{tree_of};
ghost use Rattle.model.specs.Books.{book, is_always_true as always_true};
ghost use Rattle.model.specs.Settling.{round_two};
ghost use Rattle.runs.specs.Settled.{meaning, round_of};
ghost use Rattle.store.specs.Packed.{facts_of};
ghost use Rattle.table.specs.Entries.{coded};
ghost use Rattle.table.specs.Reading.{entry};
ghost use Rattle.book_theorems.specs.Writes.{write_start, write_ground};
ghost use Rattle.book_of_task.specs.Becoming.{SameBecoming};
ghost use Rattle.instantiate.specs.Verdicts.{FactsIn, starts_of, always_of};
ghost use Rattle.instantiate.specs.Outcome.{preface_entries};

use crate::facts::holds;
use adl::Task;
use runs::{Verdict, verdict_of, write_goal};
use std::alloc::AllocError;
use store::Bits;
use table::{Head, Kind};

// How many atoms of a book can change, and how many are always true.
#[derive(Clone, Copy)]
pub(crate) struct Groups {
    pub(crate) relevant: u32,
    pub(crate) always: u32,
}

// Appends the atoms that can change, each with its first truth; tells how many there are.
fn write_relevant(
    atoms: u32,
    facts: &Bits,
    verdicts: &[Verdict],
    out: &mut Vec<Head>,
) -> Result<u32, AllocError>
    ensures wrote { IfOk result (λ _. map coded out.new.items ≡ map coded out.old.items ++ map write_start (starts_of (facts_of facts.now) verdicts.now atoms)) }
    ensures count { IfOk result (λ n. n ≡ length (starts_of (facts_of facts.now) verdicts.now atoms)) }
{
    let mut count = 0;
    for atom in 0..atoms {
        if let Verdict::Fact(_) = verdict_of(verdicts, atom) {
            let kind = if holds(facts, atom) {
                Kind::StartsTrue
            } else {
                Kind::StartsFalse
            };
            out.push(Head {
                kind,
                operand: atom,
            })?;
            count += 1;
        }
    }
    Ok(count)
}

// Whether an atom with this verdict is always true.
fn is_always_true(verdict: Verdict) -> bool
    ensures { result ≡ always_true (meaning verdict) }
{
    match verdict {
        Verdict::Always(truth) => truth,
        Verdict::Fact(_) => false,
    }
}

// Appends the atoms that are always true; tells how many there are.
fn write_always(atoms: u32, verdicts: &[Verdict], out: &mut Vec<Head>) -> Result<u32, AllocError>
    ensures wrote { IfOk result (λ _. map coded out.new.items ≡ map coded out.old.items ++ map (entry 21) (always_of verdicts.now atoms)) }
    ensures count { IfOk result (λ n. n ≡ length (always_of verdicts.now atoms)) }
{
    let mut count = 0;
    for atom in 0..atoms {
        if is_always_true(verdict_of(verdicts, atom)) {
            out.push(Head {
                kind: Kind::Always,
                operand: atom,
            })?;
            count += 1;
        }
    }
    Ok(count)
}

// Appends both groups of atoms and the goal.
pub(crate) fn write_preface(
    task: &Task,
    facts: &Bits,
    verdicts: &[Verdict],
    out: &mut Vec<Head>,
) -> Result<Groups, AllocError>
    requires facts { FactsIn (tree_of task.now) (facts_of facts.now) }
    requires settled { SameBecoming (round_of verdicts.now) (round_two (tree_of task.now)) }
    ensures wrote { IfOk result (λ _. map coded out.new.items ≡ map coded out.old.items ++ preface_entries (tree_of task.now)) }
    ensures groups { IfOk result (λ g. (g.relevant ≡ length (book (tree_of task.now)).relevant) × (g.always ≡ length (book (tree_of task.now)).always)) }
{
    let relevant = write_relevant(task.atoms, facts, verdicts, out)?;
    let always = write_always(task.atoms, verdicts, out)?;
    write_goal(task, verdicts, out)?;
    Ok(Groups { relevant, always })
}
