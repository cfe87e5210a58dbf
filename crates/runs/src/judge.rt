// Judging formulas over an image of the state.
ghost use Rattle.std.specs.Prelude.{◌≡◌, ℕ, ◌+◌, ◌<◌, ◌≤◌, List};
ghost use Rattle.model.specs.Meaning.{bind, over, value};
ghost use Rattle.model.specs.Trees.{Formula, members};
ghost use Rattle.runs.specs.Standing.{FormulaAt};
ghost use Rattle.protocol.specs.Shown.{shown};
ghost use Rattle.runs.specs.Shown.{bound, FormulaIn, FormulasIn, value_in, values_in};
ghost use Rattle.protocol.specs.Junctions.{joining};
ghost use Rattle.adl.specs.Held.{held, tree_of};

use crate::numbering::kind_at;
use crate::sheet::{Bound, Scene};
use crate::skip::{skip, skip_all};
use protocol::{Junction, shows};
use table::Kind;

impl Scene<'_, '_> {
    // The value of the formula at place `at`, and the place after it.
    #[cycle(judging)]
    pub(crate) fn judge(&mut self, at: usize) -> (bool, usize)
        requires { (f : Formula) × (j : ℕ) × FormulaIn self.old at f j }
        ensures same { self.new ≡ self.old }
        ensures value { (f : Formula) (j : ℕ) → FormulaIn self.old at f j → (result.0 ≡ value_in self.old f) × (result.1 ≡ j) }
    {
        let task = self.sheet.task;
        let operand = task.table.entries.operands[at];
        match kind_at(task, at) {
            Kind::True => (true, at + 1),
            Kind::False => (false, at + 1),
            Kind::Atom => {
                let atom = self.sheet.atom_number(operand, at + 1);
                (
                    shows(self.image, atom),
                    at + 1 + task.table.arity(operand) as usize,
                )
            }
            Kind::Equal => {
                let first = self.sheet.term(at + 1);
                let second = self.sheet.term(at + 2);
                (first == second, at + 3)
            }
            Kind::Not => {
                let (part, next) = self.judge(at + 1);
                (!part, next)
            }
            Kind::And => self.judge_all(Junction::All, at + 1, operand),
            Kind::Or => self.judge_all(Junction::Any, at + 1, operand),
            Kind::Imply => {
                let (first, middle) = self.judge(at + 1);
                let (second, next) = self.judge(middle);
                (!first || second, next)
            }
            Kind::Forall => {
                let every = self.judge_each(Junction::All, at + 1, operand);
                (every, skip(task, at + 1))
            }
            Kind::Exists => {
                let some = self.judge_each(Junction::Any, at + 1, operand);
                (some, skip(task, at + 1))
            }
            _ => unreachable(),
        }
    }

    // The value of `count` formulas from place `at` on: whether all of them are true, or any; and the place after them.
    #[cycle(judging)]
    fn judge_all(&mut self, junction: Junction, at: usize, count: u32) -> (bool, usize)
        requires { (fs : List Formula) × (j : ℕ) × FormulasIn self.old at count fs j }
        ensures same { self.new ≡ self.old }
        ensures value { (fs : List Formula) (j : ℕ) → FormulasIn self.old at count fs j → (result.0 ≡ values_in self.old (joining junction) fs) × (result.1 ≡ j) }
    {
        let undecided = junction.of_none();
        let mut next = at;
        for k in 0..count {
            let (part, end) = self.judge(next);
            if part != undecided {
                return (part, skip_all(self.sheet.task, end, count - k - 1));
            }
            next = end;
        }
        (undecided, next)
    }

    // Whether the formula at place `at` is true for all members of a type, or for any; they come in rising order.
    #[cycle(judging)]
    fn judge_each(&mut self, junction: Junction, at: usize, type_number: u32) -> bool
        requires room { self.old.sheet.depth < 7 }
        requires known { type_number < self.old.sheet.task.now.table.sizes.types }
        requires stands { (f : Formula) × (j : ℕ) × FormulaAt (held self.old.sheet.task.now) (self.old.sheet.depth + 1) at f j }
        ensures same { self.new ≡ self.old }
        ensures value { (f : Formula) (j : ℕ) → FormulaAt (held self.old.sheet.task.now) (self.old.sheet.depth + 1) at f j →
            result ≡ over (joining junction) (λ o. value (tree_of self.old.sheet.task.now) (shown self.old.image.now) (bind (bound self.old.sheet) o) f) (members (tree_of self.old.sheet.task.now) type_number) }
    {
        let undecided = junction.of_none();
        let task = self.sheet.task;
        let members = task.table.entries.operands[type_number as usize];
        for o in 0..task.table.sizes.objects {
            if (members >> o) % 2 == 1 {
                let before = self.bind(o);
                let bound = Bound {
                    scene: self,
                    before,
                };
                let (part, _) = bound.scene.judge(at);
                if part != undecided {
                    return part;
                }
            }
        }
        undecided
    }
}
