// A layer over a store.
ghost use Rattle.std.specs.Prelude.{◌≡◌};
ghost use Rattle.cells.specs.Stores.{Sound, count_of};
ghost use Rattle.layer.specs.Places.{LayerKept, Passes};

use crate::calls::{put_at, read_at, wipe_at};
use crate::placing::Placing;
use cells::{Entry, Store, StoreFault, WritableStore};

// Holds the store below by value and shows entries of it, each at a place there. Its calls are calls below at that place, and their refusals tell the layer's own entry.
#[derive(Drop)]
pub struct Layer<S, P> {
    below: S,
    placing: P,
}

impl<S: Store, P: Placing> Layer<S, P> {
    pub fn new(below: S, placing: P) -> Layer<S, P>
        ensures below { result.below ≡ below }
        ensures placing { result.placing ≡ placing }
    {
        Layer { below, placing }
    }

    // Where entry `i` lies below.
    fn place(&self, i: usize) -> Option<usize>
        ensures { Passes (P.view self.now.placing) (P.hidden self.now.placing) (S.meaning self.now.below) i result }
    {
        self.placing.place(self.below.count(), i)
    }
}

impl<S: Store, P: Placing + Drop> Layer<S, P> {
    // Gives the store below back.
    pub fn into_below(self) -> S
        ensures { result ≡ self.below }
    {
        let Layer { below, placing: _ } = self;
        below
    }
}

impl<S: Store, P: Placing> Store for Layer<S, P> {
    ghost meaning = { λ l. P.view l.placing (S.meaning l.below) };

    ghost Kept = { LayerKept P.Hidden S.Kept };

    ghost kept = { λ l. record { hidden = P.hidden l.placing (S.meaning l.below); below = S.kept l.below } };

    ghost lent = { λ l. S.lent l.below };

    fn count(&self) -> usize
        ensures is { result ≡ count_of (P.view self.now.placing (S.meaning self.now.below)) }
        ensures sound { Sound (P.view self.now.placing (S.meaning self.now.below)) }
        ensures room { P.Room self.now.placing result }
    {
        self.placing.shown(self.below.count())
    }

    fn alphabet(&self) -> u8 {
        self.below.alphabet()
    }

    fn read(&mut self, i: usize) -> Result<Entry, StoreFault> {
        let place = self.place(i);
        read_at(&mut self.below, place, i)
    }
}

impl<S: WritableStore, P: Placing> WritableStore for Layer<S, P> {
    fn put(&mut self, i: usize, symbol: u8) -> Result<(), StoreFault> {
        let place = self.place(i);
        put_at(&mut self.below, place, i, symbol)
    }

    fn wipe(&mut self, i: usize) -> Result<(), StoreFault> {
        let place = self.place(i);
        wipe_at(&mut self.below, place, i)
    }
}
