// The sizes that a task table opens with.
ghost use Rattle.std.specs.Prelude.{◌≡◌, ◌<◌, ◌≤◌, OnOk};

use fault::{Cause, Fault, Layer};

#[derive(Clone, Copy, PartialEq, Eq, Debug)]
pub struct Sizes {
    pub objects: u32,
    pub types: u32,
    pub predicates: u32,
    pub facts: u32,
    pub operators: u32,
    pub entries: u32,
}

impl Sizes {
    ghost use Rattle.adl.specs.Loads.{sizes_fit};

    // Whether each is inside its limits, first to last.
    pub(crate) fn check(self) -> Result<(), Fault>
        ensures same { result ≡ sizes_fit self }
        ensures limits { OnOk result ((self.objects ≤ 32) × (self.types ≤ 32) × (self.predicates ≤ 32) × (self.facts ≤ 4096) × (self.operators ≤ 32) × (self.entries ≤ 16384) × (0 < self.objects)) }
    {
        // the place of the refusal is the number of the size, as the page on refusals lists it
        let outside = if self.objects == 0 || self.objects > 32 {
            0
        } else if self.types > 32 {
            1
        } else if self.predicates > 32 {
            2
        } else if self.facts > 4096 {
            3
        } else if self.operators > 32 {
            4
        } else if self.entries == 0 || self.entries > 16384 {
            5
        } else {
            return Ok(());
        };
        Err(Fault::new(Cause::SizeOutOfLimits, Layer::Task, outside))
    }
}
