// Many facts at once.
ghost use Rattle.std.specs.Prelude.{◌≡◌};
ghost use Rattle.store.specs.Sets.{put_all, answered_all};

use crate::store::Store;
use fault::Fault;

// Puts one number after another, up to the first that is refused.
pub fn put_all<S: Store>(store: &mut S, numbers: &[u32]) -> Result<(), Fault>
    ensures size { S.extent store.new ≡ S.extent store.old }
    ensures set { S.facts store.new ≡ put_all (S.extent store.old) (S.facts store.old) numbers.now }
    ensures answer { result ≡ answered_all (S.extent store.old) numbers.now }
{
    for k in numbers {
        store.put(*k, true)?;
    }
    Ok(())
}
