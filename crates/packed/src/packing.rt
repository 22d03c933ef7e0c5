// How bytes hold cells.
ghost use Rattle.std.specs.Prelude.{◌≡◌, ℕ, List, slice_get, take};
ghost use Rattle.cells.specs.Stores.{Meaning, Sound, InAlphabet, count_of, with_entry};
ghost use Rattle.packed.specs.Told.{PackingTold};

use cells::Entry;

pub trait Packing {
    // What bytes mean as a store.
    ghost meaning: { List ℕ → Meaning };

    // The bytes that are no cells, which no call changes.
    ghost kept: { List ℕ → List ℕ };

    // The bytes in which entries stand, with others past them.
    ghost written: { Meaning → List ℕ → List ℕ };

    ghost ALPHABET: { ℕ };

    const ALPHABET: u8;

    // How many cells there are.
    fn count(bytes: &[u8]) -> usize
        ensures { result ≡ count_of (meaning bytes.now) };

    // Entry `i`, if there is one.
    fn entry(bytes: &[u8], i: usize) -> Option<Entry>
        ensures { result ≡ slice_get (meaning bytes.now).entries i };

    // Makes `entry` of cell `i`, if there is one.
    fn set(bytes: &mut [u8], i: usize, entry: Entry)
        ensures done { InAlphabet ALPHABET entry → meaning bytes.new ≡ with_entry (meaning bytes.old) i entry }
        ensures kept { kept bytes.new ≡ kept bytes.old };

    ghost alphabet: { (bs : List ℕ) → (meaning bs).alphabet ≡ ALPHABET };

    // Every symbol is below the alphabet.
    ghost sound: { (bs : List ℕ) → Sound (meaning bs) };

    // What bytes mean and what no call changes tell the bytes.
    ghost told: { PackingTold meaning kept written };
}

// The first `most` of the bytes, or all.
pub fn front(bytes: &[u8], most: usize) -> &[u8]
    ensures { result.now ≡ take most bytes.now }
{
    &bytes[..bytes.len().min(most)]
}
