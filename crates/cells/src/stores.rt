// A store of cells, and one that can be written.
ghost use Rattle.std.specs.Prelude.{◌≡◌, ℕ, List};
ghost use Rattle.cells.specs.Stores.{Meaning, Sound, count_of, read_answer, wipe_answer, wiped, put_answer, put_in};

use crate::entries::Entry;
use crate::faults::StoreFault;

// What a call leaves alone (`same`, `kept`, `lent`) stands in each contract, here and wherever a store is lent: it speaks of before and after, and a type of one moment.
pub trait Store {
    // The entries and the alphabet.
    ghost meaning: { Self → Meaning };

    // All that no call changes beside the count and the alphabet. Each implementation says what that is.
    ghost Kept: { Type 0 };

    ghost kept: { Self → Kept };

    // The ghost names of the references that the store has borrowed: whoever lent them learns by the names what stands behind them in the end.
    ghost lent: { Self → List ℕ };

    // How many entries there are. Every symbol in them is below the alphabet.
    // A clause and no law: a law would speak of values whose numbers do not fit their types, so of more stores than there are.
    fn count(&self) -> usize
        ensures is { result ≡ count_of (meaning self.now) }
        ensures sound { Sound (meaning self.now) };

    fn alphabet(&self) -> u8
        ensures { result ≡ (meaning self.now).alphabet };

    // Tells entry `i`. It takes `&mut self` since some chips move a register while they are read.
    fn read(&mut self, i: usize) -> Result<Entry, StoreFault>
        ensures answer { result ≡ read_answer (meaning self.old) i }
        ensures same { meaning self.new ≡ meaning self.old }
        ensures kept { kept self.new ≡ kept self.old }
        ensures lent { lent self.new ≡ lent self.old };
}

pub trait WritableStore: Store {
    // Puts a symbol into entry `i`.
    fn put(&mut self, i: usize, symbol: u8) -> Result<(), StoreFault>
        ensures answer { result ≡ put_answer (Self.meaning self.old) i symbol }
        ensures done { Self.meaning self.new ≡ put_in (Self.meaning self.old) i symbol }
        ensures kept { Self.kept self.new ≡ Self.kept self.old }
        ensures lent { Self.lent self.new ≡ Self.lent self.old };

    // Makes entry `i` missing.
    fn wipe(&mut self, i: usize) -> Result<(), StoreFault>
        ensures answer { result ≡ wipe_answer (Self.meaning self.old) i }
        ensures done { Self.meaning self.new ≡ wiped (Self.meaning self.old) i }
        ensures kept { Self.kept self.new ≡ Self.kept self.old }
        ensures lent { Self.lent self.new ≡ Self.lent self.old };
}
