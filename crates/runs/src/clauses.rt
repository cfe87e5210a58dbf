// Writing the effect of an action: literals on facts, and WHENs with what is left of their conditions.
ghost use Rattle.std.specs.Prelude.{◌≡◌, ℕ, ◌+◌, ◌<◌, ◌≤◌, List, [], ◌∷◌, IfOk, IfErr};
ghost use Rattle.model.specs.Lists.{gather};
ghost use Rattle.model.specs.Meaning.{bind, ground, parts};
ghost use Rattle.model.specs.Trees.{Change, Consequent, Effect, Formula, members};
ghost use Rattle.adl.specs.Held.{held, tree_of};
ghost use Rattle.book_of_task.specs.Places.{clash_in};
ghost use Rattle.runs.specs.Clauses.{Explains, DraftExtends, LiteralsWritten, PartsWritten, consequent_clash, consequents_clash, when_clash, effect_clash, effects_clash, instances_clash, EffectOf, EffectsOf, task_in, round_in, literals_of, all_literals_of, parts_of, all_parts_of, part_of};
ghost use Rattle.runs.specs.Effects.{ChangeIn, ConsequentIn, ConsequentsIn, EffectAt};
ghost use Rattle.runs.specs.Left.{FormulaOf};
ghost use Rattle.runs.specs.Shown.{bound};

use crate::counts::sum_of_counts;
use crate::draft::{Draft, Stop, note, write, write_fact};
use crate::numbering::kind_at;
use crate::settling::Settling;
use crate::skip_effect::{skip_consequent, skip_effect};
use crate::verdict::{Verdict, verdict_of};
use table::Kind;

impl Settling<'_, '_> {
    // Writes the literal of the atom at place `at`, plain or under NOT, if it is on a fact, and notes it; tells how many were written, and the place after it.
    fn write_literal(&self, at: usize, draft: &mut Draft) -> Result<(u32, usize), Stop>
        requires { (c : Change) × (j : ℕ) × ChangeIn self.now.sheet at c j }
        ensures wrote { IfOk result (λ r. (c : Change) (j : ℕ) → ChangeIn self.now.sheet at c j →
            LiteralsWritten (round_in self.now) (ground (task_in self.now) (bound self.now.sheet) c ∷ []) draft.old draft.new r.0 × (r.1 ≡ j)) }
        ensures stopped { IfErr result (λ stop. (c : Change) (j : ℕ) → ChangeIn self.now.sheet at c j →
            Explains (clash_in (round_in self.now) (ground (task_in self.now) (bound self.now.sheet) c ∷ []) (at ∷ [])) stop) }
        ensures extends { IfErr result (λ _. DraftExtends draft.old draft.new) }
    {
        let (literal, next) = self.sheet.change(at);
        note(&mut draft.literals, literal)?;
        let adds = literal.sign.adds();
        match verdict_of(self.verdicts, literal.atom) {
            Verdict::Always(truth) => {
                if truth != adds {
                    return Err(Stop::Clash(at));
                }
                Ok((0, next))
            }
            Verdict::Fact(fact) => {
                write_fact(&mut draft.entries, adds, fact)?;
                Ok((1, next))
            }
        }
    }

    // The same of all literals of the consequent at place `at`.
    #[cycle(writing_consequents)]
    fn write_consequent(&self, at: usize, draft: &mut Draft) -> Result<(u32, usize), Stop>
        requires { (c : Consequent) × (j : ℕ) × ConsequentIn self.now.sheet at c j }
        ensures wrote { IfOk result (λ r. (c : Consequent) (j : ℕ) → ConsequentIn self.now.sheet at c j →
            LiteralsWritten (round_in self.now) (literals_of self.now c) draft.old draft.new r.0 × (r.1 ≡ j)) }
        ensures stopped { IfErr result (λ stop. (c : Consequent) (j : ℕ) → ConsequentIn self.now.sheet at c j →
            Explains (consequent_clash self.now at c) stop) }
        ensures extends { IfErr result (λ _. DraftExtends draft.old draft.new) }
    {
        let task = self.sheet.task;
        match kind_at(task, at) {
            Kind::And => self.write_consequents(at + 1, task.table.entries.operands[at], draft),
            _ => self.write_literal(at, draft),
        }
    }

    // The same of `count` consequents from place `at` on.
    #[cycle(writing_consequents)]
    fn write_consequents(
        &self,
        at: usize,
        count: u32,
        draft: &mut Draft,
    ) -> Result<(u32, usize), Stop>
        requires { (cs : List Consequent) × (j : ℕ) × ConsequentsIn self.now.sheet at count cs j }
        ensures wrote { IfOk result (λ r. (cs : List Consequent) (j : ℕ) → ConsequentsIn self.now.sheet at count cs j →
            LiteralsWritten (round_in self.now) (all_literals_of self.now cs) draft.old draft.new r.0 × (r.1 ≡ j)) }
        ensures stopped { IfErr result (λ stop. (cs : List Consequent) (j : ℕ) → ConsequentsIn self.now.sheet at count cs j →
            Explains (consequents_clash self.now at cs) stop) }
        ensures extends { IfErr result (λ _. DraftExtends draft.old draft.new) }
    {
        let mut next = at;
        let mut written = 0;
        for _k in 0..count {
            let (more, end) = self.write_consequent(next, draft)?;
            written = sum_of_counts(written, more)?;
            next = end;
        }
        Ok((written, next))
    }

    // Writes the WHEN whose condition stands at place `at` and its consequent behind it: nothing if the condition is FALSE or no literal is on a fact,
    // the literals alone if it is TRUE. Tells how many clauses were written, and the place after the WHEN.
    fn write_when(&self, at: usize, draft: &mut Draft) -> Result<(u32, usize), Stop>
        requires { (f : Formula) × (c : Consequent) × (i j : ℕ) × FormulaOf self.now at f i × ConsequentIn self.now.sheet i c j }
        ensures wrote { IfOk result (λ r. (f : Formula) (c : Consequent) (i j : ℕ) → FormulaOf self.now at f i → ConsequentIn self.now.sheet i c j →
            PartsWritten (task_in self.now) (round_in self.now) (part_of self.now f c ∷ []) draft.old draft.new r.0 × (r.1 ≡ j)) }
        ensures stopped { IfErr result (λ stop. (f : Formula) (c : Consequent) (i j : ℕ) → FormulaOf self.now at f i → ConsequentIn self.now.sheet i c j →
            Explains (when_clash self.now i f c) stop) }
        ensures extends { IfErr result (λ _. DraftExtends draft.old draft.new) }
    {
        let start = draft.entries.len();
        write(&mut draft.entries, Kind::When, 0)?;
        let (truth, consequent) = self.simplify(at, &mut draft.entries)?;
        match truth {
            Some(false) => {
                draft.entries.truncate(start);
                Ok((0, skip_consequent(self.sheet.task, consequent)))
            }
            Some(true) => {
                draft.entries.truncate(start);
                self.write_consequent(consequent, draft)
            }
            None => {
                let group = draft.entries.len();
                write(&mut draft.entries, Kind::And, 0)?;
                let (written, next) = self.write_consequent(consequent, draft)?;
                if written == 0 {
                    draft.entries.truncate(start);
                    return Ok((0, next));
                }
                draft.entries[group].operand = written;
                Ok((1, next))
            }
        }
    }

    // Writes the clauses of the effect at place `at`, and notes the literals that it can bring about; tells how many clauses, and the place after the effect.
    #[cycle(writing_effects)]
    pub(crate) fn write_effect(&self, at: usize, draft: &mut Draft) -> Result<(u32, usize), Stop>
        requires { (e : Effect) × (j : ℕ) × EffectOf self.now at e j }
        ensures wrote { IfOk result (λ r. (e : Effect) (j : ℕ) → EffectOf self.now at e j →
            PartsWritten (task_in self.now) (round_in self.now) (parts_of self.now e) draft.old draft.new r.0 × (r.1 ≡ j)) }
        ensures stopped { IfErr result (λ stop. (e : Effect) (j : ℕ) → EffectOf self.now at e j →
            Explains (effect_clash self.now at e) stop) }
        ensures extends { IfErr result (λ _. DraftExtends draft.old draft.new) }
    {
        let task = self.sheet.task;
        let operand = task.table.entries.operands[at];
        match kind_at(task, at) {
            Kind::And => self.write_all(at + 1, operand, draft),
            Kind::Forall => {
                let written = self.write_each(at + 1, operand, draft)?;
                Ok((written, skip_effect(task, at + 1)))
            }
            Kind::When => self.write_when(at + 1, draft),
            _ => self.write_literal(at, draft),
        }
    }

    // The same of `count` effects from place `at` on.
    #[cycle(writing_effects)]
    fn write_all(&self, at: usize, count: u32, draft: &mut Draft) -> Result<(u32, usize), Stop>
        requires { (es : List Effect) × (j : ℕ) × EffectsOf self.now at count es j }
        ensures wrote { IfOk result (λ r. (es : List Effect) (j : ℕ) → EffectsOf self.now at count es j →
            PartsWritten (task_in self.now) (round_in self.now) (all_parts_of self.now es) draft.old draft.new r.0 × (r.1 ≡ j)) }
        ensures stopped { IfErr result (λ stop. (es : List Effect) (j : ℕ) → EffectsOf self.now at count es j →
            Explains (effects_clash self.now at es) stop) }
        ensures extends { IfErr result (λ _. DraftExtends draft.old draft.new) }
    {
        let mut next = at;
        let mut written = 0;
        for _k in 0..count {
            let (more, end) = self.write_effect(next, draft)?;
            written = sum_of_counts(written, more)?;
            next = end;
        }
        Ok((written, next))
    }

    // The same of the effect at place `at` for each member of a type, in rising order.
    #[cycle(writing_effects)]
    fn write_each(&self, at: usize, type_number: u32, draft: &mut Draft) -> Result<u32, Stop>
        requires room { self.now.sheet.depth < 7 }
        requires known { type_number < self.now.sheet.task.now.table.sizes.types }
        requires stands { (e : Effect) × (j : ℕ) × EffectAt (held self.now.sheet.task.now) (self.now.sheet.depth + 1) at e j }
        ensures wrote { IfOk result (λ r. (e : Effect) (j : ℕ) → EffectAt (held self.now.sheet.task.now) (self.now.sheet.depth + 1) at e j →
            PartsWritten (task_in self.now) (round_in self.now) (gather (λ o. parts (task_in self.now) (bind (bound self.now.sheet) o) e) (members (task_in self.now) type_number)) draft.old draft.new r) }
        ensures stopped { IfErr result (λ stop. (e : Effect) (j : ℕ) → EffectAt (held self.now.sheet.task.now) (self.now.sheet.depth + 1) at e j →
            Explains (instances_clash self.now at e (members (task_in self.now) type_number)) stop) }
        ensures extends { IfErr result (λ _. DraftExtends draft.old draft.new) }
    {
        let task = self.sheet.task;
        let members = task.table.entries.operands[type_number as usize];
        let mut written = 0;
        for o in 0..task.table.sizes.objects {
            if (members >> o) % 2 == 1 {
                let instance = self.with(o);
                let (more, _) = instance.write_effect(at, draft)?;
                written = sum_of_counts(written, more)?;
            }
        }
        Ok(written)
    }
}
