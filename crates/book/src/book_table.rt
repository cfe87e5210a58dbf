// A book table: sizes inside their limits, and as many entries.
ghost use Rattle.std.specs.Prelude.{◌≡◌, ◌+◌, ◌≤◌, IfOk};
ghost use Rattle.fault.specs.declared.Layer.TheVariants as layer;
ghost use Rattle.table.specs.Answers.{and_then, whether};
ghost use Rattle.book.specs.Opens.{sizes_fit, lengths_fit, given};

use crate::sizes::Sizes;
use fault::{Fault, Layer};
use table::Entries;

// A struct of its own beside that of tasks: one over any sizes could not derive Clone, and would hold its limits as one fact that no search
// opens.
#[derive(Clone, Copy)]
pub struct BookTable<'a> {
    pub sizes: Sizes,
    pub entries: Entries<'a>,
    ghost whole: { entries.count ≡ sizes.entries },
    ghost atoms: { sizes.atoms ≤ 65536 },
    ghost few: { sizes.relevant + sizes.always ≤ sizes.atoms },
    ghost actions: { sizes.actions ≤ 1048576 },
    ghost short: { sizes.entries ≤ 1048576 },
}

impl<'a> BookTable<'a> {
    ghost use Rattle.book.specs.Views.{table as table_in};

    // The table that these sizes and arrays make, or the first fault of the sizes and of the arrays' lengths.
    pub(crate) fn new(
        sizes: Sizes,
        kinds: &'a [u8],
        operands: &'a [u32],
    ) -> Result<BookTable<'a>, Fault>
        ensures same { whether result ≡ and_then (sizes_fit sizes) (lengths_fit sizes.entries kinds.now operands.now) }
        ensures made { IfOk result (λ t. table_in t ≡ given sizes kinds.now operands.now) }
    {
        sizes.check()?;
        let entries = Entries::new(Layer::Book, sizes.entries, kinds, operands)?;
        Ok(BookTable { sizes, entries })
    }
}
