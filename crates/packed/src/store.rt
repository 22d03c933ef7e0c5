// A store over lent bytes, by any packing.
ghost use Rattle.std.specs.Prelude.{◌≡◌, ℕ, List, [], ◌∷◌, slice_get};

use crate::packing::Packing;
use cells::{Entry, Store, StoreFault, WritableStore};
use std::marker::PhantomData;

// The bytes are borrowed: whoever lends them learns what stands there in the end.
#[derive(Drop)]
pub struct Packed<'a, P> {
    bytes: &'a mut [u8],
    packing: PhantomData<P>,
}

impl<'a, P> Packed<'a, P> {
    // Any bytes are a store.
    pub fn new(bytes: &'a mut [u8]) -> Packed<'a, P>
        ensures same { result.bytes.now ≡ bytes.old }
        ensures lent { result.bytes.ghost_name ≡ bytes.entry.ghost_name }
    {
        Packed {
            bytes,
            packing: PhantomData,
        }
    }

    // Gives the bytes back.
    pub fn into_bytes(self) -> &'a mut [u8]
        ensures same { result.now ≡ self.entry.bytes.now }
        ensures lent { result.ghost_name ≡ self.entry.bytes.ghost_name }
    {
        let Packed { bytes, packing: _ } = self;
        bytes
    }
}

impl<'a, P: Packing> Packed<'a, P> {
    fn entry(&self, i: usize) -> Option<Entry>
        ensures { result ≡ slice_get (P.meaning self.now.bytes.now).entries i }
    {
        P::entry(self.bytes, i)
    }
}

// A store of no cells. By hand: no derive writes it for a reference.
impl<'a, P> Default for Packed<'a, P> {
    ghost is_default = { λ s. s.bytes.now ≡ [] };

    fn default() -> Packed<'a, P> {
        Packed::new(&mut [])
    }
}

impl<'a, P: Packing> Store for Packed<'a, P> {
    ghost meaning = { λ s. P.meaning s.bytes.now };

    ghost Kept = { List ℕ };

    ghost kept = { λ s. P.kept s.bytes.now };

    ghost lent = { λ s. s.bytes.ghost_name ∷ [] };

    fn count(&self) -> usize {
        P::count(self.bytes)
    }

    fn alphabet(&self) -> u8 {
        P::ALPHABET
    }

    fn read(&mut self, i: usize) -> Result<Entry, StoreFault> {
        self.entry(i).ok_or(StoreFault::NoEntry { position: i })
    }
}

impl<'a, P: Packing> WritableStore for Packed<'a, P> {
    fn put(&mut self, i: usize, symbol: u8) -> Result<(), StoreFault> {
        StoreFault::check_put(self.count(), self.alphabet(), i, symbol)?;
        P::set(self.bytes, i, Entry::Symbol(symbol));
        Ok(())
    }

    fn wipe(&mut self, i: usize) -> Result<(), StoreFault> {
        StoreFault::check_access(self.count(), i)?;
        P::set(self.bytes, i, Entry::Missing);
        Ok(())
    }
}
