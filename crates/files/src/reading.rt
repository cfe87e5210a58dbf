// Reading the files of tasks and of books into arrays of the caller's.
ghost use Rattle.std.specs.Prelude.{◌≡◌, ◌*◌, ◌<◌, ◌≤◌, length, drop, IfOk, MatchOption, MatchResult};
ghost use Rattle.table.specs.Answers.{whether};
ghost use Rattle.instantiate.specs.Growing.{over};
ghost use Rattle.files.specs.Formats.{numbers as numbers_in, entries_told, kinds_told, operands_told, fits, holds, reads};
ghost use Rattle.files.specs.Converting.{task_sizes, book_sizes, read_into, loads_file, opens_file};

use crate::numbers::take_numbers;
use adl::{Sizes, Task};
use book::{Book, Sizes as BookSizes};
use fault::{Cause, Fault, Layer};

// What stands behind the sizes of a file: the kinds, and the operands as bytes.
#[derive(Clone, Copy)]
struct Parts<'a> {
    kinds: &'a [u8],
    operands: &'a [u8],
}

// Takes so many sizes from the front of the file; tells how many entries there are, and the rest.
fn take_sizes<'a>(input: &'a [u8], sizes: &mut [u32]) -> Option<(u32, &'a [u8])>
    requires { 0 < length sizes.old }
    ensures { MatchOption result (length input.now < 4 * length sizes.old)
        (λ r. (4 * length sizes.old ≤ length input.now) × (sizes.new ≡ numbers_in (length sizes.old) input.now) × (r.0 ≡ entries_told (length sizes.old) input.now) × (r.1.now ≡ drop (4 * length sizes.old) input.now)) }
{
    let rest = take_numbers(input, sizes)?;
    Some((sizes[sizes.len() - 1], rest))
}

// Takes so many sizes, and tells the parts behind them, if the file is as long as they tell.
#[tactic(auto, using(crate::proofs::Fitting::short, crate::proofs::Fitting::uneven))]
fn take_parts<'a>(input: &'a [u8], sizes: &mut [u32]) -> Result<Parts<'a>, Fault>
    requires { 0 < length sizes.old }
    ensures answers { whether result ≡ fits (length sizes.old) input.now }
    ensures parts { IfOk result (λ parts. (sizes.new ≡ numbers_in (length sizes.old) input.now) × (length parts.kinds.now ≡ entries_told (length sizes.old) input.now)
        × (parts.kinds.now ≡ kinds_told (length sizes.old) input.now) × (length parts.operands.now ≡ 4 * entries_told (length sizes.old) input.now)
        × (numbers_in (entries_told (length sizes.old) input.now) parts.operands.now ≡ operands_told (length sizes.old) input.now)) }
{
    let misfit = Fault::new(Cause::FileLength, Layer::File, input.len() as u64);
    let (entries, rest) = take_sizes(input, sizes).ok_or(misfit)?;
    if rest.len() as u64 != 5 * entries as u64 {
        return Err(misfit);
    }
    let (kinds, operands) = rest.split_at(entries as usize);
    Ok(Parts { kinds, operands })
}

impl Parts<'_> {
    // Puts the kinds and the operands to the front of the arrays, if there is room for them.
    #[tactic(auto, unfolding(fault::specs::Faults::writing_cause))]
    fn put(self, kinds: &mut [u8], operands: &mut [u32]) -> Result<(), Fault>
        requires { length self.operands.now ≡ 4 * length self.kinds.now }
        ensures answers { result ≡ holds (length self.entry.kinds.now) (length kinds.old) (length operands.old) }
        ensures filled { MatchResult result
            (λ _. (kinds.new ≡ over self.entry.kinds.now kinds.old) × (operands.new ≡ over (numbers_in (length self.entry.kinds.now) self.entry.operands.now) operands.old))
            (λ _. (kinds.new ≡ kinds.old) × (operands.new ≡ operands.old)) }
    {
        let entries = self.kinds.len();
        if kinds.len() < entries {
            return Err(Fault::new(Cause::PlacesTooShort, Layer::File, kinds.len() as u64));
        }
        if operands.len() < entries {
            return Err(Fault::new(Cause::PlacesTooShort, Layer::File, operands.len() as u64));
        }
        kinds[..entries].copy_from_slice(self.kinds);
        // there are just so many numbers
        take_numbers(self.operands, &mut operands[..entries]);
        Ok(())
    }
}

// The sizes of the task in the file; its kinds and operands stand at the front of the arrays.
#[tactic(auto, using(crate::proofs::Opening::six_sizes))]
pub fn read_task_file(input: &[u8], kinds: &mut [u8], operands: &mut [u32]) -> Result<Sizes, Fault>
    ensures answers { whether result ≡ reads 6 input.now (length kinds.old) (length operands.old) }
    ensures sizes { IfOk result (λ sizes. sizes ≡ task_sizes input.now) }
    ensures filled { MatchResult result
        (λ _. (kinds.new ≡ over (kinds_told 6 input.now) kinds.old) × (operands.new ≡ over (operands_told 6 input.now) operands.old))
        (λ _. (kinds.new ≡ kinds.old) × (operands.new ≡ operands.old)) }
{
    let mut sizes = [0; 6];
    take_parts(input, &mut sizes)?.put(kinds, operands)?;
    let [objects, types, predicates, facts, operators, entries] = sizes;
    Ok(Sizes {
        objects,
        types,
        predicates,
        facts,
        operators,
        entries,
    })
}

// The same of a book.
#[tactic(auto, using(crate::proofs::Opening::five_sizes))]
pub fn read_book_file(
    input: &[u8],
    kinds: &mut [u8],
    operands: &mut [u32],
) -> Result<BookSizes, Fault>
    ensures answers { whether result ≡ reads 5 input.now (length kinds.old) (length operands.old) }
    ensures sizes { IfOk result (λ sizes. sizes ≡ book_sizes input.now) }
    ensures filled { MatchResult result
        (λ _. (kinds.new ≡ over (kinds_told 5 input.now) kinds.old) × (operands.new ≡ over (operands_told 5 input.now) operands.old))
        (λ _. (kinds.new ≡ kinds.old) × (operands.new ≡ operands.old)) }
{
    let mut sizes = [0; 5];
    take_parts(input, &mut sizes)?.put(kinds, operands)?;
    let [atoms, relevant, always, actions, entries] = sizes;
    Ok(BookSizes {
        atoms,
        relevant,
        always,
        actions,
        entries,
    })
}

// Whether the file holds a task that loads; its entries are taken into the arrays as in reading it.
pub fn check_task_file(input: &[u8], kinds: &mut [u8], operands: &mut [u32]) -> Result<(), Fault>
    ensures answers { result ≡ loads_file input.now (length kinds.old) (length operands.old) }
    ensures kinds { kinds.new ≡ read_into (reads 6 input.now (length kinds.old) (length operands.old)) (kinds_told 6 input.now) kinds.old }
    ensures operands { operands.new ≡ read_into (reads 6 input.now (length kinds.old) (length operands.old)) (operands_told 6 input.now) operands.old }
{
    let sizes = read_task_file(input, kinds, operands)?;
    let entries = sizes.entries as usize;
    Task::new().load(sizes, &kinds[..entries], &operands[..entries])
}

// The same of a book that opens.
pub fn check_book_file(input: &[u8], kinds: &mut [u8], operands: &mut [u32]) -> Result<(), Fault>
    ensures answers { result ≡ opens_file input.now (length kinds.old) (length operands.old) }
    ensures kinds { kinds.new ≡ read_into (reads 5 input.now (length kinds.old) (length operands.old)) (kinds_told 5 input.now) kinds.old }
    ensures operands { operands.new ≡ read_into (reads 5 input.now (length kinds.old) (length operands.old)) (operands_told 5 input.now) operands.old }
{
    let sizes = read_book_file(input, kinds, operands)?;
    let entries = sizes.entries as usize;
    Book::new().open(sizes, &kinds[..entries], &operands[..entries])
}
