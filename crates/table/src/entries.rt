// Entries that are written as pairs of kind and operand, as the two arrays of a table.
ghost use Rattle.std.specs.Prelude.{◌≡◌, ℕ, ◌<◌, slice_index, slice_index_or};
ghost use Rattle.table.specs.Kinds.{code_of};

use crate::kind::Kind;

// Two functions, as a table is two arrays. By index: tried with array::from_fn, and the proof that its closure holds the same entries at every call did not close.

// The codes of the kinds.
pub fn kinds_of<const N: usize>(entries: &[(Kind, u32); N]) -> [u8; N]
    ensures { (k : ℕ) → k < N → slice_index result k ≡ code_of (slice_index_or entries.now k (Kind.True, 0)).0 }
{
    let mut kinds = [0; N];
    for i in 0..N {
        kinds[i] = u8::from(entries[i].0);
    }
    kinds
}

// The operands.
pub fn operands_of<const N: usize>(entries: &[(Kind, u32); N]) -> [u32; N]
    ensures { (k : ℕ) → k < N → slice_index result k ≡ (slice_index_or entries.now k (Kind.True, 0)).1 }
{
    let mut operands = [0; N];
    for i in 0..N {
        operands[i] = entries[i].1;
    }
    operands
}
