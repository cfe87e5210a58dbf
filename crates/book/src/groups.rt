// Checking the two groups of atoms, and finding an atom in a group.
ghost use Rattle.std.specs.Prelude.{◌≡◌, ℕ, ◌+◌, ◌<◌, ◌≤◌, length, take, slice_index, if◌then◌else◌, Some, None};
ghost use Rattle.model.specs.Lists.{has, position};
ghost use Rattle.book.specs.Reads.{starts_in, always_in};
ghost use Rattle.book.specs.Groups.{Rises, members_in};
ghost use Rattle.book.specs.Views.{table as table_in, answer};

use crate::book_table::BookTable;
use crate::head::head_at;
use fault::{Cause, Fault, Layer};
use table::Place;

// Atoms that rise.
#[derive(Clone, Copy)]
pub struct Group<'a> {
    pub atoms: &'a [u32],
    ghost rises: { Rises atoms.now },
}

// Where the atom stands among atoms that rise. By hand: the library's search goes on where it has met the atom, which took several times as long
// for a group that is asked over and over.
fn place_among(atoms: &[u32], atom: u32) -> Option<usize>
    requires { Rises atoms.now }
    ensures { result ≡ (if has atom atoms.now then Some (position atom atoms.now) else None) }
{
    let mut low = 0;
    let mut high = atoms.len();
    while low < high {
        let middle = low + (high - low) / 2;
        let found = atoms[middle];
        if found == atom {
            return Some(middle);
        }
        if found < atom {
            low = middle + 1;
        } else {
            high = middle;
        }
    }
    None
}

impl<'a> Group<'a> {
    // Where the atom stands.
    pub(crate) fn place_of(&self, atom: u32) -> Option<usize>
        ensures { result ≡ (if has atom self.now.atoms.now then Some (position atom self.now.atoms.now) else None) }
    {
        place_among(self.atoms, atom)
    }

    // The group without its atoms below that one.
    #[inline(always)]
    fn without_below(self, atom: u32) -> Group<'a>
        ensures none_below { (k : ℕ) → k < length result.atoms.now → atom ≤ slice_index result.atoms.now k }
        ensures kept { (x : ℕ) → atom ≤ x → has x result.atoms.now ≡ has x self.entry.atoms.now }
    {
        for (place, found) in self.atoms.iter().enumerate() {
            if *found >= atom {
                return Group {
                    atoms: &self.atoms[place..],
                };
            }
        }
        Group { atoms: &[] }
    }

    // Whether the atom stands in a group that has none below it.
    #[inline(always)]
    fn begins_with(&self, atom: u32) -> bool
        requires { (k : ℕ) → k < length self.now.atoms.now → atom ≤ slice_index self.now.atoms.now k }
        ensures { result ≡ has atom self.now.atoms.now }
    {
        self.atoms.first().copied() == Some(atom)
    }
}

// The atoms of a group, from place `from`: they rise, and none is among the others. Each of the others is passed once, as both groups rise.
#[inline(always)]
fn check_members(
    table: &BookTable,
    place: Place,
    mut others: Group,
    count: u32,
    from: usize,
) -> Result<usize, Fault>
    ensures { result ≡ answer (members_in (table_in table.now) place others.entry.atoms.now count from) }
{
    let mut low = 0;
    // counted by hand: a function for one member would answer the bound for the next beside the place
    let mut at = from;
    for _ in 0..count {
        let atom = head_at(table, place, 513, at)?.operand;
        others = others.without_below(atom);
        if (atom as u64) < low || others.begins_with(atom) {
            return Err(Fault::new(Cause::NotRising, Layer::Book, at as u64));
        }
        low = atom as u64 + 1;
        at += 1;
    }
    Ok(at)
}

// The atoms that start true or false, from the first entry on.
pub(crate) fn check_relevant(table: &BookTable) -> Result<usize, Fault>
    ensures { result ≡ answer (starts_in (table_in table.now)) }
{
    check_members(
        table,
        Place::Relevant,
        Group { atoms: &[] },
        table.sizes.relevant,
        0,
    )
}

// The atoms that are always true, from place `from`.
pub(crate) fn check_always(table: &BookTable, from: usize) -> Result<usize, Fault>
    requires long { table.now.sizes.relevant ≤ length table.now.entries.operands.now }
    requires rising { Rises (take table.now.sizes.relevant table.now.entries.operands.now) }
    ensures { result ≡ answer (always_in (table_in table.now) from) }
{
    let relevant = Group {
        atoms: &table.entries.operands[..table.sizes.relevant as usize],
    };
    check_members(table, Place::Always, relevant, table.sizes.always, from)
}
