// Facts as a rising list of their numbers, for at most 65,536 facts.
ghost use Rattle.std.specs.Prelude.{◌≡◌, min, length};
ghost use Rattle.std.specs.List.Sorted.{IsStrictlyIncreasing};
ghost use Rattle.rising.specs.Items.{items};
ghost use Rattle.store.specs.Listed.{list_size, list_facts};
ghost use Rattle.store.specs.Members.{Under};
ghost use Rattle.store.specs.Sets.{none};
ghost use Rattle.store.specs.Within.{listed_within};

use crate::places::inside;
use crate::store::Store;
use fault::Fault;
use rising::Rising;

// A store over slots that another keeps, one for each fact that it can hold.
#[derive(Drop)]
pub struct ListStore<'a> {
    list: Rising<'a, u32>,
    // each number is below the next
    ghost rising: { IsStrictlyIncreasing (items list) },
    // each number is below the size
    ghost below: { Under (list_size list) (items list) },
}

impl<'a> ListStore<'a> {
    // The store begins with no fact, whatever the slots hold.
    pub fn over(slots: &'a mut [u32]) -> Self
        ensures size { list_size result.list ≡ min (length slots.old) 65536 }
        ensures set { list_facts result.list ≡ none }
    {
        ListStore {
            list: Rising::over(slots),
        }
    }
}

impl Store for ListStore<'_> {
    ghost extent = { λ s. list_size s.list };

    ghost facts = { λ s. list_facts s.list };

    ghost within = { λ s k h. listed_within (items s.list) (list_size s.list) k s.below h };

    fn size(&self) -> u32 {
        self.list.places().min(65536) as u32
    }

    fn has(&self, k: u32) -> Result<bool, Fault> {
        inside(self.size(), k)?;
        Ok(self.list.find(&k).is_ok())
    }

    fn put(&mut self, k: u32, present: bool) -> Result<(), Fault> {
        inside(self.size(), k)?;
        if present {
            self.list.insert(k).unwrap();
        } else {
            self.list.remove(&k);
        }
        Ok(())
    }

    fn empty(&mut self) {
        self.list.clear();
    }
}
