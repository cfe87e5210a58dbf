// Which predicates the effects of operators add and delete, as the text of the operators has them.
ghost use Rattle.std.specs.Prelude.{◌≡◌, ℕ, ◌+◌, ◌<◌, ◌≤◌, List, [], ◌∷◌, true, false, not, slice_index_or};
ghost use Rattle.model.specs.Trees.{Change, Consequent, Effect, changes_in, all_changes, outcomes_of, all_outcomes};
ghost use Rattle.model.specs.Settling.{inertia};
ghost use Rattle.adl.specs.Held.{held, tree_of};
ghost use Rattle.adl.specs.Reads.{consequents_of, effects_of};
ghost use Rattle.runs.specs.Effects.{ChangeAt, ConsequentAt, ConsequentsAt, EffectAt, EffectsAt};
ghost use Rattle.runs.specs.Touching.{Touches};

use crate::numbering::kind_at;
use crate::skip::skip;
use adl::Task;
use table::Kind;

// Whether each predicate is added somewhere, and whether it is deleted; as many places as a task may have predicates.
#[derive(Clone, Copy)]
pub struct Touched {
    pub added: [bool; 32],
    pub deleted: [bool; 32],
}

impl Touched {
    // Notes the change at place `at`, an atom plain or under NOT; tells the place after it.
    fn note_change(&mut self, task: &Task, at: usize) -> usize
        requires { (v : ℕ) × (c : Change) × (j : ℕ) × ChangeAt (held task.now) v at c j }
        ensures { (v : ℕ) (c : Change) (j : ℕ) → ChangeAt (held task.now) v at c j → Touches self.old (c ∷ []) self.new × (result ≡ j) }
    {
        let (adds, atom) = match kind_at(task, at) {
            Kind::Not => (false, at + 1),
            _ => (true, at),
        };
        let predicate = task.table.entries.operands[atom];
        if adds {
            self.added[predicate as usize] = true;
        } else {
            self.deleted[predicate as usize] = true;
        }
        atom + 1 + task.table.arity(predicate) as usize
    }

    // The same of all changes of the consequent at place `at`.
    #[cycle(noting_consequents)]
    fn note_consequent(&mut self, task: &Task, at: usize) -> usize
        requires { (v : ℕ) × (c : Consequent) × (j : ℕ) × ConsequentAt (held task.now) v at c j }
        ensures { (v : ℕ) (c : Consequent) (j : ℕ) → ConsequentAt (held task.now) v at c j → Touches self.old (outcomes_of c) self.new × (result ≡ j) }
    {
        match kind_at(task, at) {
            Kind::And => self.note_consequents(task, at + 1, task.table.entries.operands[at]),
            _ => self.note_change(task, at),
        }
    }

    // The same of `count` consequents from place `at` on.
    #[cycle(noting_consequents)]
    fn note_consequents(&mut self, task: &Task, at: usize, count: u32) -> usize
        requires { (v : ℕ) × (cs : List Consequent) × (j : ℕ) × ConsequentsAt (held task.now) v at count cs j }
        ensures { (v : ℕ) (cs : List Consequent) (j : ℕ) → ConsequentsAt (held task.now) v at count cs j → Touches self.old (all_outcomes (consequents_of cs)) self.new × (result ≡ j) }
    {
        let mut next = at;
        for _k in 0..count {
            next = self.note_consequent(task, next);
        }
        next
    }

    // The same of all changes of the effect at place `at`, also those under WHEN, whatever its condition.
    #[cycle(noting_effects)]
    fn note_effect(&mut self, task: &Task, at: usize) -> usize
        requires { (v : ℕ) × (e : Effect) × (j : ℕ) × EffectAt (held task.now) v at e j }
        ensures { (v : ℕ) (e : Effect) (j : ℕ) → EffectAt (held task.now) v at e j → Touches self.old (changes_in e) self.new × (result ≡ j) }
    {
        match kind_at(task, at) {
            Kind::And => self.note_effects(task, at + 1, task.table.entries.operands[at]),
            Kind::Forall => self.note_effect(task, at + 1),
            Kind::When => {
                let consequent = skip(task, at + 1);
                self.note_consequent(task, consequent)
            }
            _ => self.note_change(task, at),
        }
    }

    // The same of `count` effects from place `at` on.
    #[cycle(noting_effects)]
    fn note_effects(&mut self, task: &Task, at: usize, count: u32) -> usize
        requires { (v : ℕ) × (es : List Effect) × (j : ℕ) × EffectsAt (held task.now) v at count es j }
        ensures { (v : ℕ) (es : List Effect) (j : ℕ) → EffectsAt (held task.now) v at count es j → Touches self.old (all_changes (effects_of es)) self.new × (result ≡ j) }
    {
        let mut next = at;
        for _k in 0..count {
            next = self.note_effect(task, next);
        }
        next
    }

    // What the operators of a task touch.
    pub fn by(task: &Task) -> Touched
        ensures added { (p : ℕ) → p < 32 → slice_index_or result.added p false ≡ not (inertia (tree_of task.now) true p) }
        ensures deleted { (p : ℕ) → p < 32 → slice_index_or result.deleted p false ≡ not (inertia (tree_of task.now) false p) }
    {
        let mut touched = Touched {
            added: [false; 32],
            deleted: [false; 32],
        };
        for places in &task.operators[..task.table.sizes.operators as usize] {
            touched.note_effect(task, places.effect);
        }
        touched
    }
}
