// The two arrays of a table, and tables with one entry damaged.
ghost use Rattle.std.specs.Prelude.{◌≡◌, ℕ, ◌<◌, ◌≤◌, slice_index, slice_index_or, slice_set};
ghost use Rattle.table.specs.Kinds.{code_of};

use table::{Kind, kinds_of, operands_of};

// The codes of a table's kinds, and its operands: two arrays, as loading and opening take them.
#[derive(Clone, Copy)]
pub struct Arrays<const N: usize> {
    pub kinds: [u8; N],
    pub operands: [u32; N],
}

// The entry at a place, exchanged for another. Its kind is a number, as it may be none that exists.
#[derive(Clone, Copy)]
pub struct Damage {
    pub words: &'static str,
    pub at: usize,
    pub kind: u8,
    pub operand: u32,
}

// Sizes of a table, one of them exchanged for another.
#[derive(Clone, Copy)]
pub struct Resize<S> {
    pub words: &'static str,
    pub sizes: S,
}

impl<const N: usize> Arrays<N> {
    // The arrays of a table that is written as pairs.
    pub fn of(table: &[(Kind, u32); N]) -> Self
        ensures kinds { (k : ℕ) → k < N → slice_index result.kinds k ≡ code_of (slice_index_or table.now k (Kind.True, 0)).0 }
        ensures operands { (k : ℕ) → k < N → slice_index result.operands k ≡ (slice_index_or table.now k (Kind.True, 0)).1 }
    {
        Arrays {
            kinds: kinds_of(table),
            operands: operands_of(table),
        }
    }

    // The arrays with one entry damaged; as they are where they do not have that place.
    pub fn damaged(&self, damage: &Damage) -> Self
        ensures inside { damage.now.at < N → result ≡ record { kinds = slice_set self.now.kinds damage.now.at damage.now.kind; operands = slice_set self.now.operands damage.now.at damage.now.operand } }
        ensures outside { N ≤ damage.now.at → result ≡ self.now }
    {
        let mut arrays = *self;
        if damage.at < N {
            arrays.kinds[damage.at] = damage.kind;
            arrays.operands[damage.at] = damage.operand;
        }
        arrays
    }
}
