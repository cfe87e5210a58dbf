// The place after a formula, without judging it.
ghost use Rattle.std.specs.Prelude.{◌≡◌, ℕ, ◌+◌, ◌<◌, ◌≤◌, List};
ghost use Rattle.model.specs.Trees.{Formula};
ghost use Rattle.runs.specs.Standing.{FormulaAt, FormulasAt};
ghost use Rattle.adl.specs.Held.{held};

use crate::numbering::kind_at;
use adl::Task;
use table::Kind;

// The place after the formula at place `at`. Of books too: another grammar, of other trees.
#[cycle(skipping)]
pub(crate) fn skip(task: &Task, at: usize) -> usize
    requires { (v : ℕ) × (f : Formula) × (j : ℕ) × FormulaAt (held task.now) v at f j }
    ensures { (v : ℕ) (f : Formula) (j : ℕ) → FormulaAt (held task.now) v at f j → result ≡ j }
{
    let operand = task.table.entries.operands[at];
    match kind_at(task, at) {
        Kind::Atom => at + 1 + task.table.arity(operand) as usize,
        Kind::Equal => at + 3,
        Kind::Not | Kind::Forall | Kind::Exists => skip(task, at + 1),
        Kind::And | Kind::Or => skip_all(task, at + 1, operand),
        Kind::Imply => {
            let second = skip(task, at + 1);
            skip(task, second)
        }
        _ => at + 1,
    }
}

// The place after `count` formulas from place `at` on.
#[cycle(skipping)]
pub(crate) fn skip_all(task: &Task, at: usize, count: u32) -> usize
    requires { (v : ℕ) × (fs : List Formula) × (j : ℕ) × FormulasAt (held task.now) v at count fs j }
    ensures { (v : ℕ) (fs : List Formula) (j : ℕ) → FormulasAt (held task.now) v at count fs j → result ≡ j }
{
    let mut next = at;
    for _k in 0..count {
        next = skip(task, next);
    }
    next
}
