// Finding the actions and the atoms of a book.
ghost use Rattle.std.specs.Prelude.{◌≡◌, ◌+◌, ◌<◌, ◌≤◌, length, if◌then◌else◌, Some, None, nat_lt};
ghost use Rattle.protocol.specs.Names.{name_of};
ghost use Rattle.model.specs.Lists.{has};
ghost use Rattle.book.specs.Finds.{number_from, Tells, action_place, fact_of as fact_in};
ghost use Rattle.book.specs.Held.{held, tree_of};

use super::Book;
use crate::find::{end_of_body, end_of_name, name_at};
use crate::groups::Group;
use protocol::Name;
use std::cmp::Ordering;

impl<'a> Book<'a> {
    // The number of the action with that name. Names rise: those that come before it are passed over, one after the other, as only the one before
    // tells where the next begins.
    pub fn find(&self, name: Name) -> Option<u32>
        ensures number { result ≡ number_from 0 (tree_of self.now).actions (name_of name.entry) }
        ensures exact { Tells result (tree_of self.now).actions (name_of name.entry) }
    {
        let mut at = self.actions_at;
        for k in 0..self.table.sizes.actions {
            let end = end_of_name(&self.table, at);
            let found = name_at(&self.table, at, end);
            match found.cmp(&name) {
                Ordering::Less => at = end_of_body(&self.table, end),
                Ordering::Equal => return Some(k),
                Ordering::Greater => return None,
            }
        }
        None
    }

    // Where the action with that number begins.
    pub fn action_at(&self, number: u32) -> Option<usize>
        ensures { result ≡ (if nat_lt number (held self.now).actions then Some (action_place (held self.now) number) else None) }
    {
        if number >= self.table.sizes.actions {
            return None;
        }
        let mut at = self.actions_at;
        for _ in 0..number {
            at = end_of_body(&self.table, end_of_name(&self.table, at));
        }
        Some(at)
    }

    // The fact of a relevant atom.
    pub fn fact_of(&self, atom: u32) -> Option<u32>
        ensures { result ≡ fact_in (tree_of self.now) atom }
    {
        let relevant = Group {
            atoms: &self.table.entries.operands[..self.table.sizes.relevant as usize],
        };
        relevant.place_of(atom).map(|place| place as u32)
    }

    // Whether the atom is always true.
    pub fn is_always(&self, atom: u32) -> bool
        ensures { result ≡ has atom (tree_of self.now).always }
    {
        let from = self.table.sizes.relevant as usize;
        let to = from + self.table.sizes.always as usize;
        let always = Group {
            atoms: &self.table.entries.operands[from..to],
        };
        always.place_of(atom).is_some()
    }

    // How many atoms the task has.
    pub fn atoms(&self) -> u32
        ensures { result ≡ (tree_of self.now).atoms }
    {
        self.table.sizes.atoms
    }

    // How many of them are relevant.
    pub fn facts(&self) -> u32
        ensures { result ≡ length (tree_of self.now).relevant }
    {
        self.table.sizes.relevant
    }
}
