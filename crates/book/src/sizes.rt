// The sizes that a book table opens with.
ghost use Rattle.std.specs.Prelude.{◌≡◌, ◌+◌, ◌≤◌, OnOk};

use fault::{Cause, Fault, Layer};

#[derive(Clone, Copy, PartialEq, Eq, Debug)]
pub struct Sizes {
    // how many atoms the task has
    pub atoms: u32,
    // how many of them start true or false, and how many are always true
    pub relevant: u32,
    pub always: u32,
    pub actions: u32,
    pub entries: u32,
}

impl Sizes {
    ghost use Rattle.book.specs.Opens.{sizes_fit};

    // Whether each is inside its limits, first to last.
    pub(crate) fn check(self) -> Result<(), Fault>
        ensures same { result ≡ sizes_fit self }
        ensures limits { OnOk result ((self.atoms ≤ 65536) × (self.relevant + self.always ≤ self.atoms) × (self.actions ≤ 1048576) × (self.entries ≤ 1048576)) }
    {
        // the place of the refusal is the number of the size, as the page on refusals lists it
        let outside = if self.atoms > 65536 {
            0
        } else if self.relevant as u64 + self.always as u64 > self.atoms as u64 {
            2
        } else if self.actions > 1048576 {
            3
        } else if self.entries == 0 || self.entries > 1048576 {
            4
        } else {
            return Ok(());
        };
        Err(Fault::new(Cause::SizeOutOfLimits, Layer::Book, outside))
    }
}
