// Tables as they are written down.
ghost use Rattle.std.specs.Prelude.{◌≡◌, IfOk};
ghost use Rattle.worked.specs.Views.{table_in};

use std::alloc::{AllocError, Global};
use table::Kind;

// The sizes and the entries of a table.
#[derive(Clone, Copy)]
pub struct Written<S> {
    pub sizes: S,
    pub entries: &'static [(Kind, u32)],
}

impl<S> Written<S> {
    // The codes of the kinds.
    pub fn kinds(&self, alloc: Global) -> Result<Vec<u8>, AllocError>
        ensures { IfOk result (λ kinds. kinds.items ≡ (table_in self.now).kinds) }
    {
        self.entries
            .iter()
            .map(|entry| u8::from(entry.0))
            .collect(alloc)
    }

    // The operands.
    pub fn operands(&self, alloc: Global) -> Result<Vec<u32>, AllocError>
        ensures { IfOk result (λ operands. operands.items ≡ (table_in self.now).operands) }
    {
        self.entries.iter().map(|entry| entry.1).collect(alloc)
    }
}
