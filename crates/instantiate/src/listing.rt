// Listing the literals of round one.
ghost use Rattle.std.specs.Prelude.{◌≡◌, ◌++◌, ◌<◌, ◌⊎◌, List, [], map, length, MatchResult};
ghost use Rattle.adl.specs.Held.{tree_of};
ghost use Rattle.model.specs.Meaning as model;
ghost use Rattle.model.specs.Settling.{reach, round_one};
ghost use Rattle.protocol.specs.Names.{name_of};
ghost use Rattle.rising.specs.Items.{items, room};
ghost use Rattle.runs.specs.Effects.{meant};
ghost use Rattle.runs.specs.Settled.{round_of};
ghost use Rattle.book_of_task.specs.Becoming.{SameBecoming};
ghost use Rattle.instantiate.specs.Listing.{different, Lists};
ghost use Rattle.instantiate.specs.Outcome.{literals_one, literals_of};
ghost use Rattle.instantiate.specs.Refusals.{no_memory, TooShort};

use crate::work::{Work, fitting};
use adl::Task;
use fault::{Cause, Fault, Layer};
use rising::{Full, Literal, Rising};
use runs::{Draft, Fitting, Verdict, list_choices};

// Puts the literals into the list.
fn note_all(literals: &[Literal], listed: &mut Rising<Literal>) -> Result<(), Full>
    ensures places { room listed.new ≡ room listed.old }
    ensures held { (ls : List model.Literal) → Lists (items listed.old) ls →
        MatchResult result (λ _. Lists (items listed.new) (ls ++ map meant literals.now)) (λ _. room listed.old < different (ls ++ map meant literals.now)) }
{
    for literal in literals {
        listed.insert(*literal)?;
    }
    Ok(())
}

// Lists the literals that an action can bring about in round one.
fn list_one(
    fitting: &Fitting,
    verdicts: &[Verdict],
    draft: &mut Draft,
    listed: &mut Rising<Literal>,
) -> Result<(), Fault>
    requires { SameBecoming (round_of verdicts.now) (round_one (tree_of fitting.now.task.now)) }
    ensures places { room listed.new ≡ room listed.old }
    ensures held { (ls : List model.Literal) → Lists (items listed.old) ls → MatchResult result
        (λ _. Lists (items listed.new) (ls ++ reach (tree_of fitting.now.task.now) (round_one (tree_of fitting.now.task.now)) (name_of fitting.now.name)))
        (λ fault. (fault ≡ no_memory) ⊎
        TooShort (room listed.old) (ls ++ reach (tree_of fitting.now.task.now) (round_one (tree_of fitting.now.task.now)) (name_of fitting.now.name)) fault) }
{
    draft.clear();
    fitting.write_action(verdicts, draft)?;
    if note_all(&draft.literals, listed).is_err() {
        return Err(Fault::new(Cause::ListTooShort, Layer::Book, listed.places() as u64));
    }
    Ok(())
}

// Lists the literals that the actions of an operator can bring about in round one.
fn list_operator(
    task: &Task,
    verdicts: &[Verdict],
    operator: u32,
    work: &mut Work,
    listed: &mut Rising<Literal>,
) -> Result<(), Fault>
    requires known { operator < task.now.table.sizes.operators }
    requires settled { SameBecoming (round_of verdicts.now) (round_one (tree_of task.now)) }
    ensures places { room listed.new ≡ room listed.old }
    ensures held { (ls : List model.Literal) → Lists (items listed.old) ls → MatchResult result
        (λ _. Lists (items listed.new) (ls ++ literals_of (tree_of task.now) operator))
        (λ fault. (fault ≡ no_memory) ⊎ TooShort (room listed.old) (ls ++ literals_of (tree_of task.now) operator) fault) }
{
    let count = list_choices(task, operator, &mut work.choices)?;
    for objects in &work.choices {
        let fitting = fitting(task, operator, &objects[..count]);
        list_one(&fitting, verdicts, &mut work.draft, listed)?;
    }
    Ok(())
}

// Lists the literals of all actions of round one.
pub(crate) fn list_literals(
    task: &Task,
    verdicts: &[Verdict],
    work: &mut Work,
    listed: &mut Rising<Literal>,
) -> Result<(), Fault>
    requires empty { items listed.old ≡ [] }
    requires settled { SameBecoming (round_of verdicts.now) (round_one (tree_of task.now)) }
    ensures places { room listed.new ≡ room listed.old }
    ensures held { MatchResult result
        (λ _. Lists (items listed.new) (literals_one (tree_of task.now)))
        (λ fault. (fault ≡ no_memory) ⊎ TooShort (room listed.old) (literals_one (tree_of task.now)) fault) }
{
    for operator in 0..task.table.sizes.operators {
        list_operator(task, verdicts, operator, work, listed)?;
    }
    Ok(())
}
