// Writing the action of a name, and the goal, by what is settled of the atoms.
ghost use Rattle.std.specs.Prelude.{◌≡◌, ◌++◌, List, [], false, not, map, IfOk, IfErr, MatchResult, if◌then◌else◌};
ghost use Rattle.table.specs.Entries.{coded};
ghost use Rattle.model.specs.Settling.{is, Ground, simplify, reach};
ghost use Rattle.model.specs.Books.{action};
ghost use Rattle.protocol.specs.Names.{name_of};
ghost use Rattle.adl.specs.Held.{tree_of};
ghost use Rattle.book_theorems.specs.Writes.{write_ground, write_name, write_action as written_action};
ghost use Rattle.table.specs.declared.arrays.Head.{Head};
ghost use Rattle.runs.specs.Left.{Left};
ghost use Rattle.book_of_task.specs.Clashes.{some_clashes};
ghost use Rattle.book_of_task.specs.Places.{clash_of};
ghost use Rattle.runs.specs.Clauses.{Explains, Appends, DraftExtends};
ghost use Rattle.runs.specs.Extends.{Extends};
ghost use Rattle.runs.specs.Settled.{round_of};

use crate::draft::{Draft, Stop, write};
use crate::fitting_name::Fitting;
use crate::settling::Settling;
use crate::sheet::Sheet;
use crate::verdict::Verdict;
use adl::Task;
use protocol::Name;
use std::alloc::AllocError;
use table::{Head, Kind};

// Appends TRUE or FALSE where a formula is one of them: nothing was written of it then.
fn write_known(truth: Option<bool>, out: &mut Vec<Head>) -> Result<(), AllocError>
    ensures { MatchResult result (λ _. (g : Ground) (before : List Head) → Left g before out.old.items truth → map coded out.new.items ≡ map coded before ++ write_ground g)
        (λ _. out.new.items ≡ out.old.items) }
{
    match truth {
        Some(true) => write(out, Kind::True, 0),
        Some(false) => write(out, Kind::False, 0),
        None => Ok(()),
    }
}

// Appends ACTION and its OBJECTs.
fn write_name(name: Name, out: &mut Vec<Head>) -> Result<(), AllocError>
    ensures { MatchResult result (λ _. map coded out.new.items ≡ map coded out.old.items ++ write_name (name_of name.entry)) (λ _. Extends out.old.items out.new.items) }
{
    write(out, Kind::Action, name.operator)?;
    for object in name.objects {
        write(out, Kind::Object, *object)?;
    }
    Ok(())
}

// Appends the goal, simplified by what is settled.
fn append_goal(task: &Task, verdicts: &[Verdict], out: &mut Vec<Head>) -> Result<(), AllocError>
    ensures { MatchResult result
        (λ _. map coded out.new.items ≡ map coded out.old.items ++ write_ground (simplify (tree_of task.now) (round_of verdicts.now) [] (tree_of task.now).goal))
        (λ _. Extends out.old.items out.new.items) }
{
    let settling = Settling {
        sheet: Sheet::of(task, &[]),
        verdicts,
    };
    let (truth, _) = settling.simplify(task.goal_at, out)?;
    write_known(truth, out)
}

// The same; where there is no memory left nothing is appended.
pub fn write_goal(task: &Task, verdicts: &[Verdict], out: &mut Vec<Head>) -> Result<(), AllocError>
    ensures { MatchResult result
        (λ _. map coded out.new.items ≡ map coded out.old.items ++ write_ground (simplify (tree_of task.now) (round_of verdicts.now) [] (tree_of task.now).goal))
        (λ _. out.new.items ≡ out.old.items) }
{
    let start = out.len();
    match append_goal(task, verdicts, out) {
        Ok(()) => Ok(()),
        Err(error) => {
            out.truncate(start);
            Err(error)
        }
    }
}

impl Fitting<'_, '_, '_> {
    // Appends the action of the name by what is settled, and notes the literals that it can bring about; nothing if its precondition is FALSE. Tells
    // whether it was written.
    #[tactic(auto, using(crate::proofs::Turns::objects_few, crate::proofs::Turns::begins_inside))]
    fn append_action(&self, verdicts: &[Verdict], draft: &mut Draft) -> Result<bool, Stop>
        ensures told { IfOk result (λ written. written ≡ not (is false (action (tree_of self.now.task.now) (round_of verdicts.now) (name_of self.now.name)).precondition)) }
        ensures wrote { IfOk result (λ written.
            Appends (if written then written_action (action (tree_of self.now.task.now) (round_of verdicts.now) (name_of self.now.name)) else [])
            (reach (tree_of self.now.task.now) (round_of verdicts.now) (name_of self.now.name)) draft.old draft.new) }
        ensures clear { IfOk result (λ _. some_clashes (round_of verdicts.now) (reach (tree_of self.now.task.now) (round_of verdicts.now) (name_of self.now.name)) ≡ false) }
        ensures stopped { IfErr result (Explains (clash_of (tree_of self.now.task.now) (round_of verdicts.now) (name_of self.now.name))) }
        ensures extends { IfErr result (λ _. DraftExtends draft.old draft.new) }
    {
        let Fitting { task, name } = *self;
        let start = draft.entries.len();
        write_name(name, &mut draft.entries)?;
        let operator = task.operators[name.operator as usize];
        let precondition = operator.start + 1 + name.objects.len();
        let settling = Settling {
            sheet: Sheet::of(task, name.objects),
            verdicts,
        };
        let (truth, _) = settling.simplify(precondition, &mut draft.entries)?;
        if truth == Some(false) {
            draft.entries.truncate(start);
            return Ok(false);
        }
        write_known(truth, &mut draft.entries)?;
        let group = draft.entries.len();
        write(&mut draft.entries, Kind::And, 0)?;
        let (written, _) = settling.write_effect(operator.effect, draft)?;
        draft.entries[group].operand = written;
        Ok(true)
    }

    // The same; on a refusal nothing is appended and nothing is noted.
    pub fn write_action(&self, verdicts: &[Verdict], draft: &mut Draft) -> Result<bool, Stop>
        ensures told { IfOk result (λ written. written ≡ not (is false (action (tree_of self.now.task.now) (round_of verdicts.now) (name_of self.now.name)).precondition)) }
        ensures wrote { IfOk result (λ written.
            Appends (if written then written_action (action (tree_of self.now.task.now) (round_of verdicts.now) (name_of self.now.name)) else [])
            (reach (tree_of self.now.task.now) (round_of verdicts.now) (name_of self.now.name)) draft.old draft.new) }
        ensures clear { IfOk result (λ _. some_clashes (round_of verdicts.now) (reach (tree_of self.now.task.now) (round_of verdicts.now) (name_of self.now.name)) ≡ false) }
        ensures stopped { IfErr result (Explains (clash_of (tree_of self.now.task.now) (round_of verdicts.now) (name_of self.now.name))) }
        ensures unchanged { IfErr result (λ _. (draft.new.entries.items ≡ draft.old.entries.items) × (draft.new.literals.items ≡ draft.old.literals.items)) }
    {
        let entries = draft.entries.len();
        let literals = draft.literals.len();
        match self.append_action(verdicts, draft) {
            Ok(written) => Ok(written),
            Err(stop) => {
                draft.entries.truncate(entries);
                draft.literals.truncate(literals);
                Err(stop)
            }
        }
    }
}
