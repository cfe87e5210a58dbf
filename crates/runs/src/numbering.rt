// Terms, and the numbers of atoms.
ghost use Rattle.std.specs.Prelude.{◌≡◌, ℕ, ◌+◌, ◌<◌, ◌≤◌, List, take, slice_index};
ghost use Rattle.table.specs.Kinds.{code_of};
ghost use Rattle.model.specs.Meaning.{object_of, atom_of};
ghost use Rattle.model.specs.Trees.{Term, atoms_of};
ghost use Rattle.runs.specs.Standing.{TermAt, TermsAt};
ghost use Rattle.runs.specs.Shown.{bound};
ghost use Rattle.adl.specs.Held.{held, tree_of};

use crate::sheet::Sheet;
use adl::Task;
use table::{Kind, power};

// The kind of the entry at place `at`. Of books too: one for both would be public, and a public call asks nothing of its caller.
pub(crate) fn kind_at(task: &Task, at: usize) -> Kind
    requires within { at < task.now.table.sizes.entries }
    requires known { slice_index task.now.table.entries.kinds.now at < 22 }
    ensures { code_of result ≡ slice_index task.now.table.entries.kinds.now at }
{
    Kind::try_from(task.table.entries.kinds[at]).unwrap()
}

// The number of a predicate's first atom.
// Tried, the sum of a map: what each call in its closure asks and the bound of each partial sum (`sum-requires`) stay open.
fn first_atom(task: &Task, predicate: u32) -> u32
    requires { predicate ≤ task.now.table.sizes.predicates }
    ensures { result ≡ atoms_of (tree_of task.now).objects (take predicate (tree_of task.now).arities) }
{
    let mut first = 0;
    for p in 0..predicate {
        let own = power(task.table.sizes.objects, task.table.arity(p)).unwrap();
        first += own;
    }
    first
}

impl Sheet<'_, '_> {
    // The object that the term at place `at` stands for.
    pub(crate) fn term(&self, at: usize) -> u32
        requires { (x : Term) × TermAt (held self.now.task.now) self.now.depth at x }
        ensures small { result < self.now.task.now.table.sizes.objects }
        ensures object { (x : Term) → TermAt (held self.now.task.now) self.now.depth at x → result ≡ object_of (bound self.now) x }
    {
        let task = self.task;
        let operand = task.table.entries.operands[at];
        match kind_at(task, at) {
            Kind::Object => operand,
            _ => self.objects[operand as usize],
        }
    }

    // The number of the atom whose terms stand from place `at` on.
    pub(crate) fn atom_number(&self, predicate: u32, at: usize) -> u32
        requires { (ts : List Term) × (j : ℕ) × TermsAt (held self.now.task.now) self.now.depth predicate at ts j }
        ensures small { result < self.now.task.now.atoms }
        ensures atom { (ts : List Term) (j : ℕ) → TermsAt (held self.now.task.now) self.now.depth predicate at ts j → result ≡ atom_of (tree_of self.now.task.now) (bound self.now) predicate ts }
    {
        let task = self.task;
        // by the place of each term: a kind and an operand stand in two arrays
        let mut digits = 0;
        for k in 0..task.table.arity(predicate) {
            digits = digits * task.table.sizes.objects + self.term(at + k as usize);
        }
        first_atom(task, predicate) + digits
    }
}
