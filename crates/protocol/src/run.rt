// Runs: what the runs of tasks and of books have in common.
ghost use Rattle.std.specs.Prelude.{◌≡◌, ℕ, IfOk};
ghost use Rattle.protocol.specs.Names.{name_of};
ghost use Rattle.protocol.specs.Machines.{Machine, Begun, begun, Judged, Performed};

use crate::name::Name;
use fault::Fault;
use store::Store;

// A begun run: a token beside the store. Only `begin` makes one, and only `end` takes it away.
pub trait Run: Sized {
    // what it is a run of: a reference to a task or to a book
    type Of: Copy;

    // what each call leaves and answers, over a store of that size
    ghost machine: { Self.Of → ℕ → Machine };

    // what the run is of
    ghost of: { Self → Self.Of };

    // the steps taken
    ghost steps: { Self → ℕ };

    // Empties the store, puts what is true at first, and gives a run with no step taken.
    fn begin<S: Store>(subject: Self::Of, store: &mut S) -> Result<Self, Fault>
        ensures size { S.extent store.new ≡ S.extent store.old }
        ensures subject { IfOk result (λ run. of run ≡ subject) }
        ensures begun { record { set = S.facts store.new; answer = begun steps result } ≡ (machine subject (S.extent store.old)).begins (S.facts store.old) };

    // Takes the step with this name, or refuses.
    fn perform<S: Store>(
        &mut self,
        store: &mut S,
        image: &mut [u8],
        name: Name,
    ) -> Result<(), Fault>
        ensures subject { of self.new ≡ of self.old }
        ensures size { S.extent store.new ≡ S.extent store.old }
        ensures performed { record { steps = steps self.new; set = S.facts store.new; image = image.new; answer = result }
            ≡ (machine (of self.old) (S.extent store.old)).performs (steps self.old) (S.facts store.old) image.old (name_of name.entry) };

    // Whether the atom is true.
    fn holds<S: Store>(&self, store: &S, atom: u32) -> Result<bool, Fault>
        ensures { result ≡ (machine (of self.now) (S.extent store.now)).tells (S.facts store.now) atom };

    // Whether the goal is true.
    fn goal<S: Store>(&self, store: &S, image: &mut [u8]) -> Result<bool, Fault>
        ensures { record { image = image.new; answer = result } ≡ (machine (of self.now) (S.extent store.now)).tells_goal (S.facts store.now) image.old };

    // Takes the run away, and tells the number of steps taken.
    fn end(self) -> u32
        ensures { result ≡ steps self };
}
