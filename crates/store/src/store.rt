// A store of facts: its meaning is a size and a set of numbers below it.
ghost use Rattle.std.specs.Prelude.{◌≡◌, ℕ, ◌≤◌, false};
ghost use Rattle.model.specs.Meaning.{State};
ghost use Rattle.store.specs.Sets.{none, answered, after_put};

use fault::Fault;

pub trait Store {
    // the number of places for facts
    ghost extent: { Self → ℕ };

    // the set of the facts
    ghost facts: { Self → State };

    // no fact lies past the places
    ghost within: { (s : Self) (k : ℕ) → extent s ≤ k → facts s k ≡ false };

    // The number of facts that the store has places for.
    fn size(&self) -> u32
        ensures { result ≡ extent self.now };

    // Whether fact k is in the set.
    fn has(&self, k: u32) -> Result<bool, Fault>
        ensures { result ≡ answered (extent self.now) k (facts self.now k) };

    // Puts fact k into the set, or takes it out: one call with a bool, as the project has it. That the size stays is said by each call: no field
    // relates what a store was to what it is.
    fn put(&mut self, k: u32, present: bool) -> Result<(), Fault>
        ensures size { extent self.new ≡ extent self.old }
        ensures set { facts self.new ≡ after_put (extent self.old) (facts self.old) k present }
        ensures answer { result ≡ answered (extent self.old) k tt };

    // Takes every fact out of the set.
    fn empty(&mut self)
        ensures size { extent self.new ≡ extent self.old }
        ensures set { facts self.new ≡ none };
}
