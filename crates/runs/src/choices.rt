// The lists of objects that suit an operator.
ghost use Rattle.std.specs.Prelude.{◌≡◌, ℕ, ◌+◌, ◌<◌, ◌≤◌, ◌++◌, List, [], map, length, take, All, Ok, IfOk, IfErr};
ghost use Rattle.table.specs.Reading.{good, many};
ghost use Rattle.adl.specs.Held.{held, tree_of};
ghost use Rattle.adl.specs.Reads.{parameter};
ghost use Rattle.model.specs.Meaning.{operator_of};
ghost use Rattle.model.specs.Settling.{choices as choices_of};
ghost use Rattle.runs.specs.Chosen.{chosen, Unused, choices_from};

use adl::Task;
use std::alloc::AllocError;

// Appends the list that is begun, with objects for so many parameters more, which stand from place `at` on: members of their types, rising, each another
// than those before it.
fn extend(
    task: &Task,
    at: usize,
    left: u32,
    begun: [u32; 4],
    count: usize,
    out: &mut Vec<[u32; 4]>,
) -> Result<(), AllocError>
    requires parameters { (tys : List ℕ) × (j : ℕ) × (many (parameter (held task.now)) left at ≡ good tys j) }
    requires few { count + left ≤ 4 }
    requires unused { Unused (count + left) begun }
    ensures lists { IfOk result (λ _. (tys : List ℕ) (j : ℕ) → many (parameter (held task.now)) left at ≡ good tys j →
        map (chosen (count + left)) out.new.items ≡ map (chosen (count + left)) out.old.items ++ map (λ os. take count begun ++ os) (choices_from (tree_of task.now) (take count begun) tys)) }
    ensures unused { IfOk result (λ _. All (Unused (count + left)) out.old.items → All (Unused (count + left)) out.new.items) }
{
    if left == 0 {
        out.push(begun)?;
        return Ok(());
    }
    let members = task.table.entries.operands[task.table.entries.operands[at] as usize];
    for o in 0..task.table.sizes.objects {
        if (members >> o) % 2 == 1 && !begun[..count].contains(&o) {
            let mut longer = begun;
            longer[count] = o;
            extend(task, at + 1, left - 1, longer, count + 1, out)?;
        }
    }
    Ok(())
}

// Fills the list with the lists of objects that suit an operator, rising, each in the first places of an array, with 0 behind them; tells how many objects
// each has. The list is empty where there is no such operator, and where there is no memory left.
pub fn list_choices(
    task: &Task,
    operator: u32,
    out: &mut Vec<[u32; 4]>,
) -> Result<usize, AllocError>
    ensures unknown { task.now.table.sizes.operators ≤ operator → (result ≡ Ok 0) × (out.new.items ≡ []) }
    ensures count { IfOk result (λ n. operator < task.now.table.sizes.operators → n ≡ length (operator_of (tree_of task.now) operator).parameters) }
    ensures few { IfOk result (λ n. n ≤ 4) }
    ensures lists { IfOk result (λ n. operator < task.now.table.sizes.operators → map (chosen n) out.new.items ≡ choices_of (tree_of task.now) operator) }
    ensures unused { IfOk result (λ n. All (Unused n) out.new.items) }
    ensures none { IfErr result (λ _. out.new.items ≡ []) }
{
    out.clear();
    if operator >= task.table.sizes.operators {
        return Ok(0);
    }
    let start = task.operators[operator as usize].start;
    let count = task.table.entries.operands[start];
    match extend(task, start + 1, count, [0; 4], 0, out) {
        Ok(()) => Ok(count as usize),
        Err(error) => {
            out.clear();
            Err(error)
        }
    }
}
