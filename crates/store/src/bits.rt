// Facts as packed bits: fact k at bit k mod 8 of byte k div 8, for at most 65,536 facts.
ghost use Rattle.std.specs.Prelude.{◌≡◌, drop};
ghost use Rattle.store.specs.Packed.{bit_size, bit_facts, size_of, facts_of, cleared};
ghost use Rattle.store.specs.Sets.{none, answered, after_put};
ghost use Rattle.store.specs.Within.{facts_within};

use crate::places::inside;
use crate::store::Store;
use fault::Fault;

// A store over bytes that another keeps.
#[derive(Drop)]
pub struct Bits<'a> {
    bytes: &'a mut [u8],
}

impl<'a> Bits<'a> {
    // The store begins with the facts whose bits the bytes have; bytes past the first 8,192 hold none.
    pub fn over(bytes: &'a mut [u8]) -> Self
        ensures bytes { result.bytes.now ≡ bytes.old }
        ensures size { size_of result ≡ bit_size bytes.old }
        ensures set { facts_of result ≡ bit_facts bytes.old }
    {
        Bits { bytes }
    }
}

impl Store for Bits<'_> {
    ghost extent = { size_of };

    ghost facts = { facts_of };

    ghost within = { λ s k h. facts_within s.bytes.now k h };

    fn size(&self) -> u32 {
        8 * self.bytes.len().min(8192) as u32
    }

    fn has(&self, k: u32) -> Result<bool, Fault> {
        inside(self.size(), k)?;
        let byte = self.bytes[k as usize / 8];
        Ok((byte >> (k % 8)) & 1 == 1)
    }

    fn put(&mut self, k: u32, present: bool) -> Result<(), Fault>
        ensures size { size_of self.new ≡ size_of self.old }
        ensures set { facts_of self.new ≡ after_put (size_of self.old) (facts_of self.old) k present }
        ensures answer { result ≡ answered (size_of self.old) k tt }
        ensures rest { drop 8192 self.new.bytes.now ≡ drop 8192 self.old.bytes.now }
    {
        inside(self.size(), k)?;
        let mask = 1u8 << (k % 8);
        let byte = &mut self.bytes[k as usize / 8];
        if present {
            *byte |= mask;
        } else {
            *byte &= !mask;
        }
        Ok(())
    }

    fn empty(&mut self)
        ensures size { size_of self.new ≡ size_of self.old }
        ensures set { facts_of self.new ≡ none }
        ensures rest { drop 8192 self.new.bytes.now ≡ drop 8192 self.old.bytes.now }
    {
        clear(self.bytes);
    }
}

// Clears the bytes that hold facts. It takes the bytes alone, as the proof does not see through the field what fill writes.
fn clear(bytes: &mut [u8])
    ensures { bytes.new ≡ cleared bytes.old }
{
    let n = bytes.len().min(8192);
    bytes[..n].fill(0);
}
