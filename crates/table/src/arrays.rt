// The entries of a table, in two arrays of the caller's.
ghost use Rattle.std.specs.Prelude.{◌≡◌, ◌<◌, ◌≤◌, length, IfOk, OnOk};
ghost use Rattle.table.specs.Answers.{whether, heading, lengths_fit};

use crate::kind::Kind;
use crate::places::{Place, permits};
use fault::{Cause, Fault, Layer};

// An entry with its kind.
#[derive(Clone, Copy)]
pub struct Head {
    pub kind: Kind,
    pub operand: u32,
}

// So many entries, whose arrays have at least as many places: two arrays and a count, as the interface hands them over.
#[derive(Clone, Copy)]
pub struct Entries<'a> {
    pub count: u32,
    pub kinds: &'a [u8],
    pub operands: &'a [u32],
    ghost kinded: { count ≤ length kinds.now },
    ghost numbered: { count ≤ length operands.now },
}

impl<'a> Entries<'a> {
    ghost use Rattle.table.specs.Entries.{Holds, first, all_coded};

    // The entries that these arrays hold, or the refusal of an array that is too short, kinds first.
    pub fn new(
        layer: Layer,
        count: u32,
        kinds: &'a [u8],
        operands: &'a [u32],
    ) -> Result<Entries<'a>, Fault>
        ensures same { whether result ≡ lengths_fit layer count kinds.now operands.now }
        ensures held { IfOk result (Holds count kinds.now operands.now) }
    {
        if kinds.len() < count as usize {
            return Err(Fault::new(Cause::ArrayTooShort, layer, kinds.len() as u64));
        }
        if operands.len() < count as usize {
            return Err(Fault::new(Cause::ArrayTooShort, layer, operands.len() as u64));
        }
        Ok(Entries {
            count,
            kinds,
            operands,
        })
    }

    // The entry at place `at`, if there is one and its kind may stand at such a place. Inlined, so that each call tests for its own place alone.
    #[inline(always)]
    pub fn head_at(&self, layer: Layer, place: Place, at: usize) -> Result<Head, Fault>
        ensures same { all_coded result ≡ heading layer (first self.now.count self.now.kinds.now self.now.operands.now place at) }
        ensures inside { OnOk result (at < self.now.count) }
    {
        if at >= self.count as usize {
            return Err(Fault::new(Cause::EntriesMismatch, layer, at as u64));
        }
        match Kind::try_from(self.kinds[at]) {
            Ok(kind) if permits(place, kind) => Ok(Head {
                kind,
                operand: self.operands[at],
            }),
            _ => Err(Fault::new(Cause::KindNotPermitted, layer, at as u64)),
        }
    }
}
