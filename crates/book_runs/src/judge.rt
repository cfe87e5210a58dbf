// Judging ground formulas over an image of the state.
ghost use Rattle.std.specs.Prelude.{◌≡◌, ℕ, ◌+◌, ◌<◌, ◌≤◌, true};
ghost use Rattle.table.specs.Answers.{is_good};
ghost use Rattle.table.specs.Reading.{many, next_place};
ghost use Rattle.book.specs.Reads.{ground};
ghost use Rattle.book_runs.specs.Scenes.{state_in, table_in};
ghost use Rattle.protocol.specs.Junctions.{joining};
ghost use Rattle.book_runs.specs.Standing.{value_in, values_in};

use crate::entries::kind_at;
use crate::scene::Scene;
use crate::skip::skip_all;
use protocol::{Junction, shows};
use table::Kind;

impl Scene<'_> {
    // The value of the formula at place `at`, where `levels` levels are left, and the place after it.
    #[cycle(judge_judge_group)]
    #[tactic(auto, using(crate::proofs::Standing::formulas))]
    pub(crate) fn judge(&self, levels: u32, at: usize) -> (bool, usize)
        requires { is_good (ground (table_in self.now) levels at) ≡ true }
        ensures value { result.0 ≡ value_in (state_in self.now) (ground (table_in self.now) levels at) }
        ensures end { result.1 ≡ next_place (ground (table_in self.now) levels at) }
    {
        let table = self.table;
        let operand = table.entries.operands[at];
        match kind_at(table, at) {
            Kind::True => (true, at + 1),
            Kind::Fact => (shows(self.image, operand), at + 1),
            Kind::Not => {
                let (part, next) = self.judge(levels - 1, at + 1);
                (!part, next)
            }
            Kind::And => self.judge_group(Junction::All, levels - 1, at + 1, operand),
            Kind::Or => self.judge_group(Junction::Any, levels - 1, at + 1, operand),
            _ => (false, at + 1),
        }
    }

    // Whether all of `count` formulas from place `at` on are true, or any; and the place after them.
    // Not inlined: `judge` would then save, for each single entry too, the registers that the loop needs.
    #[inline(never)]
    #[cycle(judge_judge_group)]
    fn judge_group(&self, junction: Junction, levels: u32, at: usize, count: u32) -> (bool, usize)
        requires { is_good (many (ground (table_in self.now) levels) count at) ≡ true }
        ensures value { result.0 ≡ values_in (state_in self.now) (joining junction) (many (ground (table_in self.now) levels) count at) }
        ensures end { result.1 ≡ next_place (many (ground (table_in self.now) levels) count at) }
    {
        let undecided = junction.of_none();
        let mut next = at;
        for left in (0..count).rev() {
            let (part, end) = self.judge(levels, next);
            if part != undecided {
                return (part, skip_all(self.table, levels, end, left));
            }
            next = end;
        }
        (undecided, next)
    }
}
