// Whether a name fits its operator.
ghost use Rattle.std.specs.Prelude.{◌≡◌, ℕ, ◌+◌, ◌<◌, ◌≤◌, List, length};
ghost use Rattle.table.specs.Reading.{good, many};
ghost use Rattle.model.specs.Lists.{has, distinct};
ghost use Rattle.model.specs.Meaning.{typed, fits as fits_task};
ghost use Rattle.model.specs.Trees.{members};
ghost use Rattle.adl.specs.Reads.{parameter};
ghost use Rattle.protocol.specs.Names.{name_of};
ghost use Rattle.adl.specs.Held.{held, tree_of};

use adl::Task;
use protocol::Name;

// Whether the object is a member of the type, which is known as it is of every type that a formula, an effect or a parameter names.
fn is_member(task: &Task, type_number: u32, object: u32) -> bool
    requires { type_number < task.now.table.sizes.types }
    ensures { result ≡ has object (members (tree_of task.now) type_number) }
{
    let members = task.table.entries.operands[type_number as usize];
    object < task.table.sizes.objects && (members >> object) % 2 == 1
}

// Whether the objects are of the types of as many parameters, which stand from place `at` on.
// Tried, zip and all over a slice of the operands: the slice's end, what each call in the closure asks (`all-requires`) and the result
// stay open.
fn are_typed(task: &Task, at: usize, objects: &[u32]) -> bool
    requires { (tys : List ℕ) × (j : ℕ) × (many (parameter (held task.now)) (length objects.now) at ≡ good tys j) }
    ensures { (tys : List ℕ) (j : ℕ) → many (parameter (held task.now)) (length objects.now) at ≡ good tys j → result ≡ typed (tree_of task.now) tys objects.now }
{
    match objects {
        [] => true,
        [first, rest @ ..] => is_member(task, task.table.entries.operands[at], *first)
            && are_typed(task, at + 1, rest),
    }
}

// Whether the numbers all differ: each from those after it.
fn are_distinct(numbers: &[u32]) -> bool
    ensures { result ≡ distinct numbers.now }
{
    match numbers {
        [] => true,
        [first, rest @ ..] => !rest.contains(first) && are_distinct(rest),
    }
}

// Whether the name fits: its operator exists, and its objects are as many as the parameters, of their types, and all differ.
pub(crate) fn fits(task: &Task, name: Name) -> bool
    ensures { result ≡ fits_task (tree_of task.now) (name_of name.entry) }
{
    if name.operator >= task.table.sizes.operators {
        return false;
    }
    let start = task.operators[name.operator as usize].start;
    if task.table.entries.operands[start] as usize != name.objects.len() {
        return false;
    }
    are_typed(task, start + 1, name.objects) && are_distinct(name.objects)
}
