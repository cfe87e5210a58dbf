// A rising list over a lent slice, for every key with a total order.
ghost use Rattle.std.specs.Prelude.{◌≡◌, ◌<◌, ◌≤◌, [], length, take, MatchOption, MatchResult};
ghost use Rattle.rising.specs.Ascent.{Rises, Gap, Spot, AfterInsert, AfterRemove};
ghost use Rattle.rising.specs.Items.{items, room};

use crate::key::Key;
use std::cmp::Ordering;

// The keys stand in the first places. A list that rises goes on rising: each call promises it.
// A lent slice and a length, as nothing here allocates, and the project wants no invariant of the generic type.
#[derive(Drop)]
pub struct Rising<'a, K> {
    slots: &'a mut [K],
    len: usize,
}

// The answer of a list with no free place.
#[derive(Clone, Copy, PartialEq, Eq, Debug)]
pub struct Full;

// The place of the key among these, or the place where it would stand. By hand, as the library's search goes on where it has met the key.
fn locate<K: Key>(keys: &[K], key: &K) -> Result<usize, usize>
    ensures within { MatchResult result (λ i. i < length keys.now) (λ i. i ≤ length keys.now) }
    ensures found { Rises K.before keys.now → MatchResult result (Spot keys.now key.now) (Gap K.before keys.now key.now) }
{
    let mut low = 0;
    let mut high = keys.len();
    while low < high {
        let mid = low + (high - low) / 2;
        match keys[mid].order(key) {
            Ordering::Less => low = mid + 1,
            Ordering::Equal => return Ok(mid),
            Ordering::Greater => high = mid,
        }
    }
    Err(low)
}

impl<'a, K: Key> Rising<'a, K> {
    // The list begins empty, whatever the slots hold.
    pub fn over(slots: &'a mut [K]) -> Self
        ensures none { items result ≡ [] }
        ensures places { room result ≡ length slots.old }
    {
        Rising { slots, len: 0 }
    }

    // The number of keys in the list.
    pub fn count(&self) -> usize
        ensures { result ≡ length (items self.now) }
    {
        self.len.min(self.slots.len())
    }

    // The keys, in their order.
    fn as_slice(&self) -> &[K]
        ensures { result.now ≡ items self.now }
    {
        &self.slots[..self.count()]
    }

    // The number of keys that there are places for.
    pub fn places(&self) -> usize
        ensures { result ≡ room self.now }
    {
        self.slots.len()
    }

    // The key at a place below the count.
    pub fn at(&self, i: usize) -> Option<K>
        ensures { MatchOption result (length (items self.now) ≤ i) (λ k. Spot (items self.now) k i) }
    {
        self.as_slice().get(i).copied()
    }

    // Takes every key out.
    pub fn clear(&mut self)
        ensures none { items self.new ≡ [] }
        ensures places { room self.new ≡ room self.old }
    {
        self.len = 0;
    }

    // The place of the key, or the place where it would stand.
    pub fn find(&self, key: &K) -> Result<usize, usize>
        ensures within { MatchResult result (λ i. i < length (items self.now)) (λ i. i ≤ length (items self.now)) }
        ensures found { Rises K.before (items self.now) → MatchResult result (Spot (items self.now) key.now) (Gap K.before (items self.now) key.now) }
    {
        locate(self.as_slice(), key)
    }

    // Puts the key in: whether it was new.
    pub fn insert(&mut self, key: K) -> Result<bool, Full>
        ensures places { room self.new ≡ room self.old }
        ensures held { Rises K.before (items self.old) → AfterInsert K.before (room self.old) (items self.old) (items self.new) key result }
    {
        let Err(at) = self.find(&key) else {
            return Ok(false);
        };
        let n = self.count();
        if n == self.places() {
            return Err(Full);
        }
        self.slots.copy_within(at..n, at + 1);
        self.slots[at] = key;
        self.len = n + 1;
        Ok(true)
    }

    // Takes the key out: whether it was there.
    pub fn remove(&mut self, key: &K) -> bool
        ensures places { room self.new ≡ room self.old }
        ensures held { Rises K.before (items self.old) → AfterRemove K.before (items self.old) (items self.new) key.now result }
    {
        let Ok(at) = self.find(key) else {
            return false;
        };
        let n = self.count();
        self.slots.copy_within(at + 1..n, at);
        self.len = n - 1;
        true
    }
}
