// Images of a set: a byte 0 or 1 for each fact.
ghost use Rattle.std.specs.Prelude.{◌≡◌, length};
ghost use Rattle.store.specs.Sets.{after_copy, copied};

use crate::places::has_places;
use crate::store::Store;
use fault::{Cause, Fault, Layer};

// Whether the first n facts of the store fit the image.
pub fn room_for<S: Store>(store: &S, image: &[u8], n: u32) -> Result<(), Fault>
    ensures { result ≡ copied (S.extent store.now) (length image.now) n }
{
    has_places(store, n)?;
    if image.len() < n as usize {
        Err(Fault::new(Cause::ImageTooShort, Layer::Run, n.into()))
    } else {
        Ok(())
    }
}

// Copies the first n facts into an image.
pub fn copy<S: Store>(store: &S, image: &mut [u8], n: u32) -> Result<(), Fault>
    ensures image { image.new ≡ after_copy (S.extent store.now) n (S.facts store.now) image.old }
    ensures answer { result ≡ copied (S.extent store.now) (length image.old) n }
{
    room_for(store, image, n)?;
    // By index: after a zip with iter_mut the proof would not know the bytes written.
    for k in 0..n {
        image[k as usize] = store.has(k).unwrap().into();
    }
    Ok(())
}
