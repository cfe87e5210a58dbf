// Simplifying formulas by what is settled of the atoms, and writing what is left of them.
ghost use Rattle.std.specs.Prelude.{◌≡◌, ℕ, ◌+◌, ◌<◌, ◌≤◌, List, MatchResult};
ghost use Rattle.model.specs.Meaning.{bind};
ghost use Rattle.model.specs.Trees.{Formula, members, any};
ghost use Rattle.model.specs.Settling.{settle, opposite, combine, cons, nil, instances, simplify as simplified, simplify_all as all_simplified};
ghost use Rattle.protocol.specs.Junctions.{joining};
ghost use Rattle.adl.specs.Held.{held, tree_of};
ghost use Rattle.adl.specs.Reads.{formulas_of};
ghost use Rattle.runs.specs.Standing.{FormulaAt};
ghost use Rattle.runs.specs.Shown.{bound};
ghost use Rattle.runs.specs.Settled.{meaning, fact_in, round_of};
ghost use Rattle.runs.specs.Extends.{Extends};
ghost use Rattle.runs.specs.Left.{Left, FormulaOf, FormulasOf, simplified_in, all_simplified_in};

use crate::closing::{close, counted, junction_kind, turn};
use crate::draft::write;
use crate::numbering::kind_at;
use crate::settling::Settling;
use crate::skip::{skip, skip_all};
use crate::verdict::{Verdict, verdict_of};
use protocol::Junction;
use std::alloc::AllocError;
use table::{Head, Kind};

// Appends what is left of an atom with this verdict.
fn write_atom(verdict: Verdict, out: &mut Vec<Head>) -> Result<Option<bool>, AllocError>
    ensures { MatchResult result (λ r. Left (settle (meaning verdict) (fact_in verdict)) out.old.items out.new.items r) (λ _. out.new.items ≡ out.old.items) }
{
    match verdict {
        Verdict::Always(truth) => Ok(Some(truth)),
        Verdict::Fact(fact) => {
            write(out, Kind::Fact, fact)?;
            Ok(None)
        }
    }
}

impl Settling<'_, '_> {
    // Appends what is left of the formula at place `at`, nothing where it is TRUE or FALSE; tells which of them it is, if it is one, and the place after it.
    #[cycle(simplifying)]
    pub(crate) fn simplify(
        &self,
        at: usize,
        out: &mut Vec<Head>,
    ) -> Result<(Option<bool>, usize), AllocError>
        requires { (f : Formula) × (j : ℕ) × FormulaOf self.now at f j }
        ensures { MatchResult result
            (λ r. (f : Formula) (j : ℕ) → FormulaOf self.now at f j → Left (simplified_in self.now f) out.old.items out.new.items r.0 × (r.1 ≡ j))
            (λ _. Extends out.old.items out.new.items) }
    {
        let task = self.sheet.task;
        let operand = task.table.entries.operands[at];
        let next = at + 1;
        match kind_at(task, at) {
            Kind::True => Ok((Some(true), next)),
            Kind::False => Ok((Some(false), next)),
            Kind::Atom => {
                let atom = self.sheet.atom_number(operand, next);
                let truth = write_atom(verdict_of(self.verdicts, atom), out)?;
                Ok((truth, next + task.table.arity(operand) as usize))
            }
            Kind::Equal => {
                let first = self.sheet.term(next);
                let second = self.sheet.term(at + 2);
                Ok((Some(first == second), at + 3))
            }
            Kind::Not => self.simplify_negation(next, out),
            Kind::And => self.simplify_all(Junction::All, next, operand, out),
            Kind::Or => self.simplify_all(Junction::Any, next, operand, out),
            Kind::Imply => self.simplify_implication(next, out),
            Kind::Forall => {
                let every = self.simplify_each(Junction::All, next, operand, out)?;
                Ok((every, skip(task, next)))
            }
            Kind::Exists => {
                let some = self.simplify_each(Junction::Any, next, operand, out)?;
                Ok((some, skip(task, next)))
            }
            _ => unreachable(),
        }
    }

    // The same of NOT of the formula at place `at`.
    #[cycle(simplifying)]
    fn simplify_negation(
        &self,
        at: usize,
        out: &mut Vec<Head>,
    ) -> Result<(Option<bool>, usize), AllocError>
        requires { (f : Formula) × (j : ℕ) × FormulaOf self.now at f j }
        ensures { MatchResult result
            (λ r. (f : Formula) (j : ℕ) → FormulaOf self.now at f j → Left (opposite (simplified_in self.now f)) out.old.items out.new.items r.0 × (r.1 ≡ j))
            (λ _. Extends out.old.items out.new.items) }
    {
        let start = out.len();
        write(out, Kind::Not, 0)?;
        let (truth, next) = self.simplify(at, out)?;
        Ok((turn(start, truth, out), next))
    }

    // The same of AND or OR of `count` formulas from place `at` on.
    #[cycle(simplifying)]
    fn simplify_all(
        &self,
        junction: Junction,
        at: usize,
        count: u32,
        out: &mut Vec<Head>,
    ) -> Result<(Option<bool>, usize), AllocError>
        requires { (fs : List Formula) × (j : ℕ) × FormulasOf self.now at count fs j }
        ensures { MatchResult result
            (λ r. (fs : List Formula) (j : ℕ) → FormulasOf self.now at count fs j → Left (combine (joining junction) (all_simplified_in self.now fs)) out.old.items out.new.items r.0 × (r.1 ≡ j))
            (λ _. Extends out.old.items out.new.items) }
    {
        let start = out.len();
        write(out, junction_kind(junction), 0)?;
        let decisive = Some(!junction.of_none());
        let mut next = at;
        let mut kept = 0;
        for k in 0..count {
            let (part, end) = self.simplify(next, out)?;
            if part == decisive {
                out.truncate(start);
                return Ok((part, skip_all(self.sheet.task, end, count - k - 1)));
            }
            kept += counted(part);
            next = end;
        }
        Ok((close(junction, start, kept, out), next))
    }

    // The same of IMPLY of the two formulas from place `at` on: OR of NOT the first and the second.
    #[cycle(simplifying)]
    fn simplify_implication(
        &self,
        at: usize,
        out: &mut Vec<Head>,
    ) -> Result<(Option<bool>, usize), AllocError>
        requires { (f g : Formula) × (i j : ℕ) × FormulaOf self.now at f i × FormulaOf self.now i g j }
        ensures { MatchResult result
            (λ r. (f g : Formula) (i j : ℕ) → FormulaOf self.now at f i → FormulaOf self.now i g j →
            Left (combine any (cons (opposite (simplified_in self.now f)) (cons (simplified_in self.now g) nil))) out.old.items out.new.items r.0 × (r.1 ≡ j))
            (λ _. Extends out.old.items out.new.items) }
    {
        let start = out.len();
        write(out, Kind::Or, 0)?;
        let (first, middle) = self.simplify_negation(at, out)?;
        if first == Some(true) {
            out.truncate(start);
            return Ok((first, skip(self.sheet.task, middle)));
        }
        let (second, next) = self.simplify(middle, out)?;
        if second == Some(true) {
            out.truncate(start);
            return Ok((second, next));
        }
        let kept = counted(first) + counted(second);
        Ok((close(Junction::Any, start, kept, out), next))
    }

    // The same of the instances of the formula at place `at` at all members of a type, in rising order.
    #[cycle(simplifying)]
    fn simplify_each(
        &self,
        junction: Junction,
        at: usize,
        type_number: u32,
        out: &mut Vec<Head>,
    ) -> Result<Option<bool>, AllocError>
        requires room { self.now.sheet.depth < 7 }
        requires known { type_number < self.now.sheet.task.now.table.sizes.types }
        requires stands { (f : Formula) × (j : ℕ) × FormulaAt (held self.now.sheet.task.now) (self.now.sheet.depth + 1) at f j }
        ensures { MatchResult result
            (λ r. (f : Formula) (j : ℕ) → FormulaAt (held self.now.sheet.task.now) (self.now.sheet.depth + 1) at f j →
            Left (combine (joining junction) (instances (λ o. simplified (tree_of self.now.sheet.task.now) (round_of self.now.verdicts.now) (bind (bound self.now.sheet) o) f) (members (tree_of self.now.sheet.task.now) type_number))) out.old.items out.new.items r)
            (λ _. Extends out.old.items out.new.items) }
    {
        let start = out.len();
        write(out, junction_kind(junction), 0)?;
        let decisive = Some(!junction.of_none());
        let task = self.sheet.task;
        let members = task.table.entries.operands[type_number as usize];
        let mut kept = 0;
        for o in 0..task.table.sizes.objects {
            if (members >> o) % 2 == 1 {
                let instance = self.with(o);
                let (truth, _) = instance.simplify(at, out)?;
                if truth == decisive {
                    out.truncate(start);
                    return Ok(truth);
                }
                kept += counted(truth);
            }
        }
        Ok(close(junction, start, kept, out))
    }
}
