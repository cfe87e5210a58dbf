// What a junction or a negation comes to, once its parts are written behind its own entry.
ghost use Rattle.std.specs.Prelude.{◌≡◌, ◌<◌, ◌++◌, suc, length, take, drop, is_some, if◌then◌else◌};
ghost use Rattle.protocol.specs.Junctions.{joining};
ghost use Rattle.runs.specs.Closing.{kind_of, closed_truth, closed_entries, turned_truth, turned_entries};

use protocol::Junction;
use table::{Head, Kind};

// AND or OR.
pub(crate) fn junction_kind(junction: Junction) -> Kind
    ensures { result ≡ kind_of (joining junction) }
{
    match junction {
        Junction::All => Kind::And,
        Junction::Any => Kind::Or,
    }
}

// At place `start` stands the entry of a junction, and behind it the `kept` parts that are left, none of which decides. Without parts the junction is
// known, one part stands for itself, and of several the entry tells the number.
#[tactic(auto, using(std::proofs::lemmas::List::set_split))]
pub(crate) fn close(
    junction: Junction,
    start: usize,
    kept: u32,
    out: &mut Vec<Head>,
) -> Option<bool>
    requires { start < length out.old.items }
    ensures truth { result ≡ closed_truth (joining junction) kept }
    ensures entries { out.new.items ≡ take start out.old.items ++ closed_entries (joining junction) kept (drop (suc start) out.old.items) }
{
    match kept {
        0 => {
            out.truncate(start);
            Some(junction.of_none())
        }
        1 => {
            let _ = out.remove(start);
            None
        }
        _ => {
            out[start] = Head {
                kind: junction_kind(junction),
                operand: kept,
            };
            None
        }
    }
}

// A part of which something is left counts: it is neither TRUE nor FALSE.
pub(crate) fn counted(truth: Option<bool>) -> u32
    ensures { result ≡ (if is_some truth then 0 else 1) }
{
    u32::from(truth.is_none())
}

// At place `start` stands NOT, and behind it what is left of its part, whose truth is told where it is known: NOT of TRUE or FALSE is turned over.
pub(crate) fn turn(start: usize, truth: Option<bool>, out: &mut Vec<Head>) -> Option<bool>
    requires { start < length out.old.items }
    ensures truth { result ≡ turned_truth truth }
    ensures entries { out.new.items ≡ turned_entries start truth out.old.items }
{
    let Some(part) = truth else {
        return None;
    };
    out.truncate(start);
    Some(!part)
}
