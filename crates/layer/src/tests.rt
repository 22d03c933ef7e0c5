// A call at a place, of a store of another make.
ghost use Rattle.std.specs.Prelude.{◌/◌, ℕ, List, [], ◌∷◌};
ghost use Rattle.cells.specs.declared.entries.Entry.TheVariants.{Symbol};

use crate::read_at;
use cells::{Entry, Store, StoreFault};

// A store of another make, whose symbol is below the alphabet since its code is a byte: one cell, which nothing can write.
#[derive(Drop)]
struct Halved {
    code: u8,
}

impl Store for Halved {
    ghost meaning = { λ s. record { entries = Symbol (s.code / 2) ∷ []; alphabet = 128 } };

    ghost Kept = { List ℕ };

    ghost kept = { λ s. [] };

    ghost lent = { λ s. [] };

    fn count(&self) -> usize {
        let _code = self.code;
        1
    }

    fn alphabet(&self) -> u8 {
        128
    }

    fn read(&mut self, i: usize) -> Result<Entry, StoreFault> {
        StoreFault::check_access(1, i)?;
        Ok(Entry::Symbol(self.code / 2))
    }
}

#[test]
fn calls_at_a_place_tell_the_layers_entry(rt: HostRuntime) {
    let mut store = Halved { code: 255 };
    let refused = Err(StoreFault::NoEntry { position: 7 });
    assert_eq!(rt; read_at(&mut store, Some(0), 7), Ok(Entry::Symbol(127)));
    assert_eq!(rt; read_at(&mut store, Some(1), 7), refused);
    assert_eq!(rt; read_at(&mut store, None, 7), refused);
}
