// Symbols put through a stride over a window: into any store, and into lent bytes.
#![tactic(auto)]

ghost use Rattle.std.specs.Prelude.{◌≡◌};
ghost use Rattle.cells.specs.Puts.{put_all_answer};
ghost use Rattle.piles.specs.Piles.{pile_meaning, piled};

mod pile;

use cells::{Store, StoreFault, WritableStore, put_all};
use packed::{Packed, Packing};
pub use pile::Pile;
use stride::Stride;
use window::Window;

impl Pile {
    // The pile over a store.
    fn over<S: Store>(self, store: S) -> Stride<Window<S>>
        ensures store { result.below.below ≡ store }
        ensures span { result.below.placing ≡ self.span }
        ensures pair { result.placing ≡ self.pair }
    {
        Stride::new(Window::new(store, self.span), self.pair)
    }

    // Puts `symbols` into the entries of the pile from 0 on, up to the first that is refused, and gives the store back.
    fn put_and_return<S: WritableStore>(
        self,
        store: S,
        symbols: &[u8],
    ) -> (S, Result<(), StoreFault>)
        ensures answer { result.1 ≡ put_all_answer (pile_meaning self (S.meaning store)) symbols.now }
        ensures done { S.meaning result.0 ≡ piled self (S.meaning store) symbols.now }
        ensures kept { S.kept result.0 ≡ S.kept store }
        ensures lent { S.lent result.0 ≡ S.lent store }
    {
        let mut pile = self.over(store);
        let answer = put_all(&mut pile, symbols);
        (pile.into_below().into_below(), answer)
    }

    // The same, with the store left where it is.
    pub fn put_through<S: WritableStore + Default + Drop>(
        self,
        store: &mut S,
        symbols: &[u8],
    ) -> Result<(), StoreFault>
        ensures answer { result ≡ put_all_answer (pile_meaning self (S.meaning store.old)) symbols.now }
        ensures done { S.meaning store.new ≡ piled self (S.meaning store.old) symbols.now }
        ensures kept { S.kept store.new ≡ S.kept store.old }
        ensures lent { S.lent store.new ≡ S.lent store.old }
    {
        let (back, answer) = self.put_and_return(std::mem::take(store), symbols);
        *store = back;
        answer
    }

    // The same over the store of `bytes`, by any packing.
    pub fn put_into<P: Packing + Drop>(
        self,
        bytes: &mut [u8],
        symbols: &[u8],
    ) -> Result<(), StoreFault>
        ensures answer { result ≡ put_all_answer (pile_meaning self (P.meaning bytes.old)) symbols.now }
        ensures done { bytes.new ≡ P.written (piled self (P.meaning bytes.old) symbols.now) (P.kept bytes.old) }
    {
        let mut store = Packed::<P>::new(bytes);
        self.put_through(&mut store, symbols)
    }
}

#[cfg(test)]
mod tests {
    use crate::Pile;
    use byte_store::{ByteStore, Bytes};
    use cells::{Entry, Store, StoreFault, WritableStore};
    use fault::Fault;
    use half_store::{HalfStore, Halves};
    use std::test::Fail;
    use stride::{StrideFault, StridePair};
    use window::Span;

    #[test]
    fn fifteen_takes_step_two_and_not_three(rt: HostRuntime) {
        assert!(rt; StridePair::new(15, 2).is_ok());
        assert_eq!(rt; StridePair::new(15, 3), Err(StrideFault::NoStride));
        assert!(rt; StridePair::new(1, 1).is_ok());
        assert!(rt; StridePair::new(0, 0).is_err());
        assert!(rt; StridePair::new(65_536, 65_535).is_ok());
        assert!(rt; StridePair::new(65_537, 2).is_err());
        assert_eq!(rt; StrideFault::NoStride.number(), 12);
    }

    #[test]
    fn bytes_as_entries(rt: HostRuntime) {
        let mut bytes = [255, 254];
        let mut store = ByteStore::new(&mut bytes);
        assert_eq!(rt; store.read(0), Ok(Entry::Missing));
        assert_eq!(rt; store.read(1), Ok(Entry::Symbol(254)));
        assert_eq!(rt;
            store.put(0, 255),
            Err(StoreFault::NotASymbol { position: 0 })
        );
        assert_eq!(rt; store.wipe(2), Err(StoreFault::NoEntry { position: 2 }));
    }

    #[test]
    fn halves_as_entries(rt: HostRuntime) {
        let mut bytes = [0xf3, 0, 0, 0, 0, 0, 0, 0x10];
        let mut store = HalfStore::new(&mut bytes);
        assert_eq!(rt; store.count(), 16);
        assert_eq!(rt; store.read(0), Ok(Entry::Symbol(3)));
        assert_eq!(rt; store.read(1), Ok(Entry::Missing));
        assert_eq!(rt; store.read(15), Ok(Entry::Symbol(1)));
        assert_eq!(rt; store.put(15, 14), Ok(()));
        assert_eq!(rt; store.read(15), Ok(Entry::Symbol(14)));
    }

    #[test]
    fn pile_over_bytes(rt: HostRuntime) -> Result<(), Fail> {
        let pile = Pile {
            span: Span { start: 1, len: 6 },
            pair: StridePair::new(5, 2)?,
        };
        let mut bytes = [9; 8];
        assert_eq!(rt; pile.put_into::<Bytes>(&mut bytes, &[0, 1, 2, 3]), Ok(()));
        assert_eq!(rt; bytes, [9, 0, 3, 1, 9, 2, 9, 9]);
        Ok(())
    }

    #[test]
    fn pile_over_halves(rt: HostRuntime) -> Result<(), Fail> {
        let pile = Pile {
            span: Span { start: 1, len: 3 },
            pair: StridePair::new(3, 2)?,
        };
        let mut bytes = [0xff; 2];
        let fault = StoreFault::NotASymbol { position: 2 };
        assert_eq!(rt;
            pile.put_into::<Halves>(&mut bytes, &[1, 2, 15]),
            Err(fault)
        );
        assert_eq!(rt; bytes, [0x1f, 0x2f]);
        assert_eq!(rt; fault.number(), 11);
        Ok(())
    }
}
