// The actions of a book.
ghost use Rattle.std.specs.Prelude.{◌≡◌, ◌+◌, ◌++◌, ◌<◌, List, length, IfOk, IfErr};
ghost use Rattle.adl.specs.Held.{tree_of};
ghost use Rattle.model.specs.Lists.{gather};
ghost use Rattle.model.specs.Settling.{names, round_two};
ghost use Rattle.model.specs.Books.{actions as actions_in};
ghost use Rattle.runs.specs.Settled.{round_of};
ghost use Rattle.protocol.specs.Names.{name_of};
ghost use Rattle.table.specs.Reading.{Entry};
ghost use Rattle.book_of_task.specs.Becoming.{SameBecoming};
ghost use Rattle.book_theorems.specs.Writes.{write_action};
ghost use Rattle.instantiate.specs.Growing.{Grown};
ghost use Rattle.instantiate.specs.Outcome.{actions_of};
ghost use Rattle.instantiate.specs.Acts.{actions_by};
ghost use Rattle.instantiate.specs.Refusals.{no_memory};

use crate::growing::Growing;
use crate::work::{Work, fitting};
use adl::Task;
use fault::Fault;
use runs::{Draft, Fitting, Verdict, list_choices, sum_of_counts};

// Appends the action of a name, unless its precondition is FALSE; tells how many it appends.
fn write_one(
    fitting: &Fitting,
    verdicts: &[Verdict],
    draft: &mut Draft,
    book: &mut Growing,
) -> Result<u32, Fault>
    requires { SameBecoming (round_of verdicts.now) (round_two (tree_of fitting.now.task.now)) }
    ensures most { book.new.most ≡ book.old.most }
    ensures count { IfOk result (λ n. n ≡ length (actions_by (tree_of fitting.now.task.now) (name_of fitting.now.name))) }
    ensures grown { IfOk result (λ _. (es : List Entry) → Grown es book.old →
        Grown (es ++ gather write_action (actions_by (tree_of fitting.now.task.now) (name_of fitting.now.name))) book.new) }
    ensures memory { IfErr result (λ fault. fault ≡ no_memory) }
{
    draft.clear();
    if !fitting.write_action(verdicts, draft)? {
        return Ok(0);
    }
    book.add(&draft.entries)?;
    Ok(1)
}

// Appends the actions of an operator whose precondition is not FALSE; tells how many there are.
fn write_operator(
    task: &Task,
    verdicts: &[Verdict],
    operator: u32,
    work: &mut Work,
    book: &mut Growing,
) -> Result<u32, Fault>
    requires known { operator < task.now.table.sizes.operators }
    requires settled { SameBecoming (round_of verdicts.now) (round_two (tree_of task.now)) }
    ensures most { book.new.most ≡ book.old.most }
    ensures count { IfOk result (λ n. n ≡ length (actions_of (tree_of task.now) operator)) }
    ensures grown { IfOk result (λ _. (es : List Entry) → Grown es book.old → Grown (es ++ gather write_action (actions_of (tree_of task.now) operator)) book.new) }
    ensures memory { IfErr result (λ fault. fault ≡ no_memory) }
{
    let count = list_choices(task, operator, &mut work.choices)?;
    let mut actions = 0;
    for objects in &work.choices {
        let fitting = fitting(task, operator, &objects[..count]);
        let more = write_one(&fitting, verdicts, &mut work.draft, book)?;
        actions = sum_of_counts(actions, more)?;
    }
    Ok(actions)
}

// The same of all operators.
pub(crate) fn write_actions(
    task: &Task,
    verdicts: &[Verdict],
    work: &mut Work,
    book: &mut Growing,
) -> Result<u32, Fault>
    requires settled { SameBecoming (round_of verdicts.now) (round_two (tree_of task.now)) }
    ensures most { book.new.most ≡ book.old.most }
    ensures count { IfOk result (λ n. n ≡ length (actions_in (tree_of task.now) (round_two (tree_of task.now)) (names (tree_of task.now)))) }
    ensures grown { IfOk result (λ _. (es : List Entry) → Grown es book.old →
        Grown (es ++ gather write_action (actions_in (tree_of task.now) (round_two (tree_of task.now)) (names (tree_of task.now)))) book.new) }
    ensures memory { IfErr result (λ fault. fault ≡ no_memory) }
{
    let mut actions = 0;
    for operator in 0..task.table.sizes.operators {
        let more = write_operator(task, verdicts, operator, work, book)?;
        actions = sum_of_counts(actions, more)?;
    }
    Ok(actions)
}
