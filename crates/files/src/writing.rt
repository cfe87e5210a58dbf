// Writing the file of a book.
ghost use Rattle.std.specs.Prelude.{◌≡◌, ◌≤◌, ◌+◌, ◌*◌, ◌++◌, Ok, Err, length, take, cond, nat_lt, IfOk, MatchResult};
ghost use Rattle.fault.specs.Faults.{refusal};
ghost use Rattle.fault.specs.declared.Layer.TheVariants as layer;
ghost use Rattle.instantiate.specs.Growing.{over};
ghost use Rattle.files.specs.Formats.{laid_out};
ghost use Rattle.files.specs.Theorems.{Tells};
ghost use Rattle.files.specs.Converting.{size_list};

use crate::numbers::{append, append_numbers};
use book::Sizes;
use fault::{Cause, Fault, Layer};

// Writes the file with these sizes and these entries to the front of the output, if there is room; tells its length.
#[tactic(auto, unfolding(fault::specs::Faults::writing_cause))]
pub(crate) fn write_book_file(
    sizes: Sizes,
    kinds: &[u8],
    operands: &[u32],
    output: &mut [u8],
) -> Result<usize, Fault>
    requires kinds { length kinds.now ≡ sizes.entries }
    requires operands { length operands.now ≡ sizes.entries }
    ensures answers { result ≡ cond (nat_lt (length output.old) (20 + 5 * sizes.entries)) (Err (refusal 14 layer.File (20 + 5 * sizes.entries))) (Ok (20 + 5 * sizes.entries)) }
    ensures written { MatchResult result
        (λ _. output.new ≡ over (laid_out (size_list sizes) kinds.now operands.now) output.old)
        (λ _. output.new ≡ output.old) }
    ensures inside { IfOk result (λ n. n ≤ length output.old) }
    ensures tells { IfOk result (λ n. Tells (size_list sizes) kinds.now operands.now (take n output.new)) }
{
    let Sizes {
        atoms,
        relevant,
        always,
        actions,
        entries,
    } = sizes;
    let needed = 20 + 5 * kinds.len();
    if output.len() < needed {
        return Err(Fault::new(Cause::OutputTooShort, Layer::File, needed as u64));
    }
    let kinds_at = append_numbers(output, 0, &[atoms, relevant, always, actions, entries]);
    append(output, kinds_at, kinds);
    append_numbers(output, kinds_at + kinds.len(), operands);
    Ok(needed)
}
