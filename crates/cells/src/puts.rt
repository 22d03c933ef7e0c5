// Symbols put one after another into any store.
ghost use Rattle.std.specs.Prelude.{◌≡◌};
ghost use Rattle.cells.specs.Puts.{put_all_answer, put_all_in};

use crate::faults::StoreFault;
use crate::stores::{Store, WritableStore};

// Puts `symbols` into the entries from 0 on, up to the first that is refused.
pub fn put_all<S: WritableStore>(store: &mut S, symbols: &[u8]) -> Result<(), StoreFault>
    ensures answer { result ≡ put_all_answer (S.meaning store.old) symbols.now }
    ensures done { S.meaning store.new ≡ put_all_in (S.meaning store.old) symbols.now }
    ensures kept { S.kept store.new ≡ S.kept store.old }
    ensures lent { S.lent store.new ≡ S.lent store.old }
{
    for (i, symbol) in symbols.iter().enumerate() {
        store.put(i, *symbol)?;
    }
    Ok(())
}
