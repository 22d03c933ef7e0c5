// Why a store refuses. `position` is the entry asked for.
ghost use Rattle.std.specs.Prelude.{◌≡◌, ◌<◌};
ghost use Rattle.cells.specs.Refusals.{store_fault_code, fault_at, access_fault, put_fault, Checked};

use fault::{Fault, FaultCode, Part};
use thiserror::Error;

#[derive(Clone, Copy, PartialEq, Eq, Debug, Error)]
pub enum StoreFault {
    #[error("the store has no entry {position}")]
    NoEntry { position: usize },
    #[error("the symbol to put into entry {position} is not below the alphabet")]
    NotASymbol { position: usize },
}

impl StoreFault {
    // Refuses a read or a wipe of entry `i` where there are only `count` entries.
    pub fn check_access(count: usize, i: usize) -> Result<(), StoreFault>
        ensures { Checked result (access_fault count i) (i < count) }
    {
        if i < count {
            Ok(())
        } else {
            Err(StoreFault::NoEntry { position: i })
        }
    }

    // Refuses a put of `symbol` into entry `i` where there are only `count` entries, or where the symbol is not below `alphabet`.
    pub fn check_put(count: usize, alphabet: u8, i: usize, symbol: u8) -> Result<(), StoreFault>
        ensures { Checked result (put_fault count alphabet i symbol) ((i < count) × (symbol < alphabet)) }
    {
        StoreFault::check_access(count, i)?;
        if symbol < alphabet {
            Ok(())
        } else {
            Err(StoreFault::NotASymbol { position: i })
        }
    }

    // The same refusal, told of another entry: a layer speaks of its own entries.
    pub fn at(self, position: usize) -> StoreFault
        ensures { result ≡ fault_at position self }
    {
        match self {
            StoreFault::NoEntry { position: _ } => StoreFault::NoEntry { position },
            StoreFault::NotASymbol { position: _ } => StoreFault::NotASymbol { position },
        }
    }
}

impl Fault for StoreFault {
    ghost coded = { store_fault_code };

    fn code(&self) -> FaultCode {
        match *self {
            StoreFault::NoEntry { position } => Part::Store.refusal(10, position),
            StoreFault::NotASymbol { position } => Part::Store.refusal(11, position),
        }
    }
}
