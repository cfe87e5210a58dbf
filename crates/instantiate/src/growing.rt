// The book while it is written.
ghost use Rattle.std.specs.Prelude.{◌≡◌, ◌++◌, List, [], map, IfOk};
ghost use Rattle.table.specs.Entries.{coded};
ghost use Rattle.table.specs.Reading.{Entry};

use std::alloc::{AllocError, Global};
use table::Head;

// What is finished goes in as long as it fits; past that it is only counted.
#[derive(Drop)]
pub(crate) struct Growing {
    pub(crate) entries: Vec<Head>,
    pub(crate) total: u64,
    pub(crate) most: u64,
}

impl Growing {
    ghost use Rattle.instantiate.specs.Growing.{Grown};

    // A book of no entries, with room for at most so many.
    pub(crate) fn new(alloc: Global, most: u64) -> Growing
        ensures most { result.most ≡ most }
        ensures none { Grown [] result }
    {
        Growing {
            entries: Vec::new(alloc),
            total: 0,
            most,
        }
    }

    // Appends entries that are finished.
    pub(crate) fn add(&mut self, finished: &[Head]) -> Result<(), AllocError>
        ensures most { self.new.most ≡ self.old.most }
        ensures grown { IfOk result (λ _. (es : List Entry) → Grown es self.old → Grown (es ++ map coded finished.now) self.new) }
    {
        // a sum that 64 bits cannot hold is told as want of memory
        let total = self
            .total
            .checked_add(finished.len() as u64)
            .ok_or(AllocError)?;
        if total <= self.most {
            self.entries.extend_from_slice(finished)?;
        }
        self.total = total;
        Ok(())
    }
}
