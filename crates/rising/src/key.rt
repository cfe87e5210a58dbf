// Keys with a total order.
ghost use Rattle.std.specs.Prelude.{◌≡◌, ◌<◌};
ghost use Rattle.std.specs.Ordering.{MatchOrdering};
ghost use Rattle.std.proofs.Common.{rules};

use std::cmp::Ordering;

pub trait Key: Copy {
    // the one key comes before the other
    ghost before: { Self → Self → Type 0 };

    // Which of the two comes first: equal keys are the same key.
    fn order(&self, other: &Self) -> Ordering
        ensures { MatchOrdering result (before self.now other.now) (self.now ≡ other.now) (before other.now self.now) };

    // no key comes before itself
    ghost never: { (x : Self) → before x x → ⊥ };

    // what comes before a key comes before all that it comes before
    ghost chain: { (x y z : Self) → before x y → before y z → before x z };
}

// Numbers, the smaller one first.
impl Key for u32 {
    ghost before = { ◌<◌ };

    ghost never = { Prim.search rules };

    ghost chain = { Prim.search rules };

    fn order(&self, other: &u32) -> Ordering {
        self.cmp(other)
    }
}
