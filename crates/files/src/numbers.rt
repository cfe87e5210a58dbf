// Numbers of four bytes, least first.
ghost use Rattle.std.specs.Prelude.{◌≡◌, ◌*◌, ◌+◌, ◌<◌, ◌≤◌, ℕ, List, ◌++◌, length, take, drop, MatchOption};
ghost use Rattle.std.specs.Int.{to_le_bytes, w32};
ghost use Rattle.instantiate.specs.Growing.{over};
ghost use Rattle.files.specs.Theorems.{FourBytes};
ghost use Rattle.files.specs.Formats.{number, numbers as numbers_in, bytes_of};

// The number whose bytes stand at the front, and the rest.
#[tactic(auto, unfolding(crate::specs::Formats::number))]
fn take_number(bytes: &[u8]) -> Option<(u32, &[u8])>
    ensures { MatchOption result (length bytes.now < 4) (λ r. (4 ≤ length bytes.now) × (r.0 ≡ number bytes.now) × (r.1.now ≡ drop 4 bytes.now)) }
{
    match bytes {
        [first, second, third, fourth, rest @ ..] => Some((
            u32::from_le_bytes([*first, *second, *third, *fourth]),
            rest,
        )),
        _ => None,
    }
}

// Fills the numbers from the front of the bytes, and tells the rest, if there are enough.
pub(crate) fn take_numbers<'a>(bytes: &'a [u8], numbers: &mut [u32]) -> Option<&'a [u8]>
    ensures { MatchOption result (length bytes.now < 4 * length numbers.old)
        (λ rest. (4 * length numbers.old ≤ length bytes.now) × (rest.now ≡ drop (4 * length numbers.old) bytes.now) × (numbers.new ≡ numbers_in (length numbers.old) bytes.now)) }
{
    let mut rest = bytes;
    for number in numbers.iter_mut() {
        let (value, after) = take_number(rest)?;
        *number = value;
        rest = after;
    }
    Some(rest)
}

// Writes the bytes at place `at`, behind what was written before.
pub(crate) fn append(output: &mut [u8], at: usize, bytes: &[u8])
    requires { at + length bytes.now ≤ length output.old }
    ensures { (written before : List ℕ) → length written ≡ at → output.old ≡ over written before → output.new ≡ over (written ++ bytes.now) before }
{
    output[at..at + bytes.len()].copy_from_slice(bytes);
}

// The same of numbers; tells the place after them.
pub(crate) fn append_numbers(output: &mut [u8], at: usize, numbers: &[u32]) -> usize
    requires { at + 4 * length numbers.now ≤ length output.old }
    ensures next { result ≡ at + 4 * length numbers.now }
    ensures small { FourBytes numbers.now }
    ensures wrote { (written before : List ℕ) → length written ≡ at → output.old ≡ over written before → output.new ≡ over (written ++ bytes_of numbers.now) before }
{
    let mut next = at;
    for number in numbers {
        append(output, next, &number.to_le_bytes());
        next += 4;
    }
    next
}
