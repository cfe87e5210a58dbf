// Finding the literals of an effect over the table and the image alone.
ghost use Rattle.std.specs.Prelude.{◌≡◌, ℕ, ◌+◌, ◌<◌, ◌≤◌, List, fold};
ghost use Rattle.model.specs.Lists.{gather};
ghost use Rattle.model.specs.Meaning.{bind, ground};
ghost use Rattle.model.specs.Trees.{Change, Consequent, Effect, members};
ghost use Rattle.runs.specs.Effects.{ChangeIn, ConsequentIn, ConsequentsIn, EffectAt, EffectIn, EffectsIn, meant, consequent_literals, consequents_literals, effect_literals, literals_in, all_literals_in};
ghost use Rattle.protocol.specs.Shown.{shown};
ghost use Rattle.runs.specs.Shown.{bound};
ghost use Rattle.runs.specs.Windows.{offered};
ghost use Rattle.adl.specs.Held.{held, tree_of};

use crate::numbering::kind_at;
use crate::sheet::{Bound, Scene, Sheet};
use crate::skip_effect::{skip_consequent, skip_effect};
use crate::window::Window;
use rising::{Literal, Sign};
use table::Kind;

impl Sheet<'_, '_> {
    // The literal of the atom at place `at`, plain or under NOT, and the place after it.
    pub(crate) fn change(&self, at: usize) -> (Literal, usize)
        requires { (c : Change) × (j : ℕ) × ChangeIn self.now at c j }
        ensures { (c : Change) (j : ℕ) → ChangeIn self.now at c j →
            (meant result.0 ≡ ground (tree_of self.now.task.now) (bound self.now) c) × (result.1 ≡ j) }
    {
        let task = self.task;
        let (sign, start) = match kind_at(task, at) {
            Kind::Not => (Sign::Deletes, at + 1),
            _ => (Sign::Adds, at),
        };
        let predicate = task.table.entries.operands[start];
        let atom = self.atom_number(predicate, start + 1);
        (
            Literal { atom, sign },
            start + 1 + task.table.arity(predicate) as usize,
        )
    }

    // Offers the literals of the consequent at place `at` to the window, and tells the place after it. Beside `walk`, since it is another grammar, of
    // other trees, and judges nothing.
    #[cycle(walking_consequents)]
    fn walk_consequent(&self, at: usize, window: &mut Window) -> usize
        requires { (c : Consequent) × (j : ℕ) × ConsequentIn self.now at c j }
        ensures { (c : Consequent) (j : ℕ) → ConsequentIn self.now at c j →
            (window.new ≡ fold offered window.old (consequent_literals (tree_of self.now.task.now) (bound self.now) c)) × (result ≡ j) }
    {
        let task = self.task;
        match kind_at(task, at) {
            Kind::And => self.walk_consequents(at + 1, task.table.entries.operands[at], window),
            _ => {
                let (literal, next) = self.change(at);
                window.offer(literal);
                next
            }
        }
    }

    // The same of `count` consequents from place `at` on.
    #[cycle(walking_consequents)]
    fn walk_consequents(&self, at: usize, count: u32, window: &mut Window) -> usize
        requires { (cs : List Consequent) × (j : ℕ) × ConsequentsIn self.now at count cs j }
        ensures { (cs : List Consequent) (j : ℕ) → ConsequentsIn self.now at count cs j →
            (window.new ≡ fold offered window.old (consequents_literals (tree_of self.now.task.now) (bound self.now) cs)) × (result ≡ j) }
    {
        let mut next = at;
        for _k in 0..count {
            next = self.walk_consequent(next, window);
        }
        next
    }
}

impl Scene<'_, '_> {
    // Offers the literals of the effect at place `at` to the window, every WHEN judged in the image, and tells the place after it.
    #[cycle(walking)]
    pub(crate) fn walk(&mut self, at: usize, window: &mut Window) -> usize
        requires { (e : Effect) × (j : ℕ) × EffectIn self.old at e j }
        ensures same { self.new ≡ self.old }
        ensures walked { (e : Effect) (j : ℕ) → EffectIn self.old at e j → (window.new ≡ fold offered window.old (literals_in self.old e)) × (result ≡ j) }
    {
        let task = self.sheet.task;
        let operand = task.table.entries.operands[at];
        match kind_at(task, at) {
            Kind::And => self.walk_all(at + 1, operand, window),
            Kind::Forall => {
                self.walk_each(at + 1, operand, window);
                skip_effect(task, at + 1)
            }
            Kind::When => {
                let (condition, consequent) = self.judge(at + 1);
                if condition {
                    self.sheet.walk_consequent(consequent, window)
                } else {
                    skip_consequent(task, consequent)
                }
            }
            _ => {
                let (literal, next) = self.sheet.change(at);
                window.offer(literal);
                next
            }
        }
    }

    // The same of `count` effects from place `at` on.
    #[cycle(walking)]
    fn walk_all(&mut self, at: usize, count: u32, window: &mut Window) -> usize
        requires { (es : List Effect) × (j : ℕ) × EffectsIn self.old at count es j }
        ensures same { self.new ≡ self.old }
        ensures walked { (es : List Effect) (j : ℕ) → EffectsIn self.old at count es j → (window.new ≡ fold offered window.old (all_literals_in self.old es)) × (result ≡ j) }
    {
        let mut next = at;
        for _k in 0..count {
            next = self.walk(next, window);
        }
        next
    }

    // The same of the effect at place `at` for each member of a type, in rising order. The loop is that of `judge_each`: one for both would take what is
    // done as a closure in the cycle of calls.
    #[cycle(walking)]
    fn walk_each(&mut self, at: usize, type_number: u32, window: &mut Window)
        requires room { self.old.sheet.depth < 7 }
        requires known { type_number < self.old.sheet.task.now.table.sizes.types }
        requires stands { (e : Effect) × (j : ℕ) × EffectAt (held self.old.sheet.task.now) (self.old.sheet.depth + 1) at e j }
        ensures same { self.new ≡ self.old }
        ensures walked { (e : Effect) (j : ℕ) → EffectAt (held self.old.sheet.task.now) (self.old.sheet.depth + 1) at e j →
            window.new ≡ fold offered window.old (gather (λ o. effect_literals (tree_of self.old.sheet.task.now) (shown self.old.image.now) (bind (bound self.old.sheet) o) e) (members (tree_of self.old.sheet.task.now) type_number)) }
    {
        let task = self.sheet.task;
        let members = task.table.entries.operands[type_number as usize];
        for o in 0..task.table.sizes.objects {
            if (members >> o) % 2 == 1 {
                if window.is_packed() {
                    return;
                }
                let before = self.bind(o);
                let bound = Bound {
                    scene: self,
                    before,
                };
                bound.scene.walk(at, window);
            }
        }
    }
}
