// A task table: sizes inside their limits, and as many entries.
ghost use Rattle.std.specs.Prelude.{◌≡◌, ◌<◌, ◌≤◌, IfOk};
ghost use Rattle.fault.specs.declared.Layer.TheVariants as layer;
ghost use Rattle.table.specs.Answers.{and_then, lengths_fit, whether};
ghost use Rattle.adl.specs.Loads.{sizes_fit, given};
ghost use Rattle.adl.specs.Tables.{arity as arity_of};

use crate::sizes::Sizes;
use fault::{Fault, Layer};
use table::Entries;

// A struct of its own beside that of books: one over any sizes could not derive Clone, and would hold its limits as one fact that no search
// opens.
#[derive(Clone, Copy)]
pub struct TaskTable<'a> {
    pub sizes: Sizes,
    pub entries: Entries<'a>,
    ghost whole: { entries.count ≡ sizes.entries },
    ghost some_object: { 0 < sizes.objects },
    ghost objects: { sizes.objects ≤ 32 },
    ghost types: { sizes.types ≤ 32 },
    ghost predicates: { sizes.predicates ≤ 32 },
    ghost facts: { sizes.facts ≤ 4096 },
    ghost operators: { sizes.operators ≤ 32 },
    ghost short: { sizes.entries ≤ 16384 },
}

impl<'a> TaskTable<'a> {
    ghost use Rattle.adl.specs.Views.{table as table_in};

    // The table that these sizes and arrays make, or the first fault of the sizes and of the arrays' lengths.
    pub(crate) fn new(
        sizes: Sizes,
        kinds: &'a [u8],
        operands: &'a [u32],
    ) -> Result<TaskTable<'a>, Fault>
        ensures same { whether result ≡ and_then (sizes_fit sizes) (lengths_fit layer.Task sizes.entries kinds.now operands.now) }
        ensures made { IfOk result (λ t. table_in t ≡ given sizes kinds.now operands.now) }
    {
        sizes.check()?;
        let entries = Entries::new(Layer::Task, sizes.entries, kinds, operands)?;
        Ok(TaskTable { sizes, entries })
    }

    // The arity of a predicate, or 0 where the table is too short.
    pub fn arity(&self, predicate: u32) -> u32
        ensures { result ≡ arity_of (table_in self.now) predicate }
    {
        self.entries
            .operands
            .get(self.sizes.types as usize + predicate as usize)
            .copied()
            .unwrap_or(0)
    }
}
