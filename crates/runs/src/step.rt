// Taking a step: putting the literals of an effect into a store.
ghost use Rattle.std.specs.Prelude.{◌≡◌, ℕ, ◌+◌, ◌*◌, ◌<◌, ◌≤◌, if◌then◌else◌};
ghost use Rattle.model.specs.Trees.{Formula, Effect};
ghost use Rattle.runs.specs.Effects.{EffectIn, literals_in};
ghost use Rattle.runs.specs.Shown.{FormulaIn, value_in};
ghost use Rattle.runs.specs.Windows.{kept};
ghost use Rattle.protocol.specs.Steps.{put_literals, put_step};

use crate::sheet::Scene;
use crate::window::Window;
use store::Store;

// Puts the literals of the window that add, or those that delete. `adds` is the value that is put: a
// store takes it, and the definition of puts goes by it, so a sign would be turned into it at each use.
fn put_window<S: Store>(store: &mut S, window: &Window, adds: bool)
    requires { window.now.len ≤ 64 }
    ensures size { S.extent store.new ≡ S.extent store.old }
    ensures set { S.facts store.new ≡ put_literals (S.extent store.old) adds (kept window.now) (S.facts store.old) }
{
    for literal in &window.items[..window.len] {
        if literal.sign.adds() == adds {
            let _ = store.put(literal.atom, adds);
        }
    }
}

impl Scene<'_, '_> {
    // Puts the literals of the effect at place `at` that add, or those that delete.
    fn put_effect<S: Store>(&mut self, at: usize, store: &mut S, adds: bool)
        requires { (e : Effect) × (j : ℕ) × EffectIn self.old at e j }
        ensures same { self.new ≡ self.old }
        ensures size { S.extent store.new ≡ S.extent store.old }
        ensures set { (e : Effect) (j : ℕ) → EffectIn self.old at e j →
            S.facts store.new ≡ put_literals (S.extent store.old) adds (literals_in self.old e) (S.facts store.old) }
    {
        // window after window: only walking the effect tells how many literals it has
        let mut from = 0;
        loop {
            let mut window = Window::fresh(from);
            self.walk(at, &mut window);
            put_window(store, &window, adds);
            if window.len < 64 {
                return;
            }
            from += 64;
        }
    }

    // Takes the step of the effect at place `at`: all that it deletes, then all that it adds. A book's scene has the like: a trait over both would state
    // judging and putting as ghost members, longer than these bodies.
    fn take_step<S: Store>(&mut self, at: usize, store: &mut S)
        requires { (e : Effect) × (j : ℕ) × EffectIn self.old at e j }
        ensures size { S.extent store.new ≡ S.extent store.old }
        ensures set { (e : Effect) (j : ℕ) → EffectIn self.old at e j →
            S.facts store.new ≡ put_step (S.extent store.old) (literals_in self.old e) (S.facts store.old) }
    {
        let (first, last) = (false, true);
        self.put_effect(at, store, first);
        self.put_effect(at, store, last);
    }

    // Judges the precondition at place `at` and, if it is true, takes the step of the effect at place `effect`; tells whether.
    pub(crate) fn attempt<S: Store>(&mut self, at: usize, effect: usize, store: &mut S) -> bool
        requires stands { (f : Formula) × (j : ℕ) × FormulaIn self.old at f j }
        requires effect { (e : Effect) × (j : ℕ) × EffectIn self.old effect e j }
        ensures size { S.extent store.new ≡ S.extent store.old }
        ensures judged { (f : Formula) (j : ℕ) → FormulaIn self.old at f j → result ≡ value_in self.old f }
        ensures set { (e : Effect) (j : ℕ) → EffectIn self.old effect e j →
            S.facts store.new ≡ (if result then put_step (S.extent store.old) (literals_in self.old e) (S.facts store.old) else S.facts store.old) }
    {
        let (applicable, _) = self.judge(at);
        if applicable {
            self.take_step(effect, store);
        }
        applicable
    }
}
