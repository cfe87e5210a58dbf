// Counts that 32 bits hold.
ghost use Rattle.std.specs.Prelude.{◌≡◌, ◌+◌, ◌≤◌, MatchResult};

use std::alloc::AllocError;

// One count after another: a sum that 32 bits cannot hold is more than memory holds.
pub fn sum_of_counts(first: u32, second: u32) -> Result<u32, AllocError>
    ensures { MatchResult result (λ n. n ≡ first + second) (λ _. 4294967296 ≤ first + second) }
{
    first.checked_add(second).ok_or(AllocError)
}
