// The place after a formula, without judging it.
ghost use Rattle.std.specs.Prelude.{◌≡◌, ℕ, ◌+◌, ◌<◌, ◌≤◌, true};
ghost use Rattle.table.specs.Answers.{is_good};
ghost use Rattle.table.specs.Reading.{many, next_place};
ghost use Rattle.book.specs.Reads.{ground};
ghost use Rattle.book.specs.Views.{table as table_in};

use crate::entries::kind_at;
use book::BookTable;
use table::Kind;

// The place after the formula at place `at`, where `levels` levels are left.
#[cycle(skip_skip_all)]
#[tactic(auto, using(crate::proofs::Standing::formulas))]
fn skip(table: &BookTable, levels: u32, at: usize) -> usize
    requires { is_good (ground (table_in table.now) levels at) ≡ true }
    ensures { result ≡ next_place (ground (table_in table.now) levels at) }
{
    match kind_at(table, at) {
        Kind::Not => skip(table, levels - 1, at + 1),
        Kind::And | Kind::Or => skip_all(table, levels - 1, at + 1, table.entries.operands[at]),
        _ => at + 1,
    }
}

// The place after `count` formulas from place `at` on.
#[cycle(skip_skip_all)]
pub(crate) fn skip_all(table: &BookTable, levels: u32, at: usize, count: u32) -> usize
    requires { is_good (many (ground (table_in table.now) levels) count at) ≡ true }
    ensures { result ≡ next_place (many (ground (table_in table.now) levels) count at) }
{
    let mut next = at;
    // downwards, as the proof speaks of what is left
    for _ in (0..count).rev() {
        next = skip(table, levels, next);
    }
    next
}
