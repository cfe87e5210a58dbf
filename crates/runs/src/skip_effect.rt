// The place after an effect or a consequent, without finding its literals.
ghost use Rattle.std.specs.Prelude.{◌≡◌, ℕ, ◌+◌, ◌<◌, ◌≤◌, List};
ghost use Rattle.model.specs.Trees.{Change, Consequent, Effect};
ghost use Rattle.runs.specs.Effects.{ChangeAt, ConsequentAt, ConsequentsAt, EffectAt, EffectsAt};
ghost use Rattle.adl.specs.Held.{held};

use crate::numbering::kind_at;
use crate::skip::skip;
use adl::Task;
use table::Kind;

// The place is passed beside the task, since each function answers with a place.

// The place after an atom that is added or deleted.
fn skip_change(task: &Task, at: usize) -> usize
    requires { (v : ℕ) × (c : Change) × (j : ℕ) × ChangeAt (held task.now) v at c j }
    ensures { (v : ℕ) (c : Change) (j : ℕ) → ChangeAt (held task.now) v at c j → result ≡ j }
{
    let atom = match kind_at(task, at) {
        Kind::Not => at + 1,
        _ => at,
    };
    atom + 1 + task.table.arity(task.table.entries.operands[atom]) as usize
}

// The place after the consequent at place `at`.
// Consequents and effects are two grammars over two trees: one function for both would promise each of them by a flag.
#[cycle(skipping_consequents)]
pub(crate) fn skip_consequent(task: &Task, at: usize) -> usize
    requires { (v : ℕ) × (c : Consequent) × (j : ℕ) × ConsequentAt (held task.now) v at c j }
    ensures { (v : ℕ) (c : Consequent) (j : ℕ) → ConsequentAt (held task.now) v at c j → result ≡ j }
{
    match kind_at(task, at) {
        Kind::And => skip_consequents(task, at + 1, task.table.entries.operands[at]),
        _ => skip_change(task, at),
    }
}

#[cycle(skipping_consequents)]
fn skip_consequents(task: &Task, at: usize, count: u32) -> usize
    requires { (v : ℕ) × (cs : List Consequent) × (j : ℕ) × ConsequentsAt (held task.now) v at count cs j }
    ensures { (v : ℕ) (cs : List Consequent) (j : ℕ) → ConsequentsAt (held task.now) v at count cs j → result ≡ j }
{
    let mut next = at;
    for _k in 0..count {
        next = skip_consequent(task, next);
    }
    next
}

// The place after the effect at place `at`.
#[cycle(skipping_effects)]
pub(crate) fn skip_effect(task: &Task, at: usize) -> usize
    requires { (v : ℕ) × (e : Effect) × (j : ℕ) × EffectAt (held task.now) v at e j }
    ensures { (v : ℕ) (e : Effect) (j : ℕ) → EffectAt (held task.now) v at e j → result ≡ j }
{
    match kind_at(task, at) {
        Kind::And => skip_effects(task, at + 1, task.table.entries.operands[at]),
        Kind::Forall => skip_effect(task, at + 1),
        Kind::When => {
            let consequent = skip(task, at + 1);
            skip_consequent(task, consequent)
        }
        _ => skip_change(task, at),
    }
}

#[cycle(skipping_effects)]
fn skip_effects(task: &Task, at: usize, count: u32) -> usize
    requires { (v : ℕ) × (es : List Effect) × (j : ℕ) × EffectsAt (held task.now) v at count es j }
    ensures { (v : ℕ) (es : List Effect) (j : ℕ) → EffectsAt (held task.now) v at count es j → result ≡ j }
{
    let mut next = at;
    for _k in 0..count {
        next = skip_effect(task, next);
    }
    next
}
