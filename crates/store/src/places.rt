// Whether a store has the places that are asked for.
ghost use Rattle.std.specs.Prelude.{◌≡◌, ◌<◌, ◌≤◌, OnOk};
ghost use Rattle.store.specs.Sets.{answered, placed};

use crate::store::Store;
use fault::{Cause, Fault, Layer};

// Whether a store of this size has a place for fact k.
pub(crate) fn inside(size: u32, k: u32) -> Result<(), Fault>
    ensures answer { result ≡ answered size k tt }
    ensures below { OnOk result (k < size) }
{
    if k < size {
        Ok(())
    } else {
        Err(Fault::new(Cause::OutsideStore, Layer::Store, k.into()))
    }
}

// Whether the store has places for the first n facts.
pub fn has_places<S: Store>(store: &S, n: u32) -> Result<(), Fault>
    ensures answer { result ≡ placed (S.extent store.now) n }
    ensures room { OnOk result (n ≤ S.extent store.now) }
{
    if store.size() < n {
        Err(Fault::new(Cause::StoreTooSmall, Layer::Run, n.into()))
    } else {
        Ok(())
    }
}
