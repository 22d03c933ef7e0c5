// One cell a byte.
#![tactic(auto)]

ghost use Rattle.std.specs.Prelude.{◌≡◌, refl};
ghost use Rattle.byte_store.specs.ByteStores.{BytesTold, byte_meaning, byte_kept, byte_row};
ghost use Rattle.byte_store.specs.Rows.{bytes_sound, bytes_told};

use cells::Entry;
use packed::{Packed, Packing, front};

const MOST_CELLS: usize = 65_536;

// The byte 255 is missing, any other is that symbol. Bytes past 65,536 are no cells.
#[derive(Clone, Copy)]
pub struct Bytes;

pub type ByteStore<'a> = Packed<'a, Bytes>;

impl Packing for Bytes {
    ghost meaning = { byte_meaning };

    ghost kept = { byte_kept };

    ghost written = { byte_row };

    ghost ALPHABET = { 255 };

    const ALPHABET: u8 = 255;

    fn count(bytes: &[u8]) -> usize {
        front(bytes, MOST_CELLS).len()
    }

    fn entry(bytes: &[u8], i: usize) -> Option<Entry> {
        let byte = front(bytes, MOST_CELLS).get(i)?;
        Some(Entry::of_code(*byte, Self::ALPHABET))
    }

    #[tactic(auto, using(crate::specs::Rows::byte_count, crate::proofs::ByteCells::byte_put, crate::proofs::ByteCells::byte_rest))]
    fn set(bytes: &mut [u8], i: usize, entry: Entry) {
        if i < Self::count(bytes) {
            bytes[i] = entry.code(Self::ALPHABET);
        }
    }

    ghost alphabet = { λ bs. refl };

    ghost sound = { bytes_sound };

    ghost told = { bytes_told };
}

// What a store means and what no call changes tell which bytes stand there. This call says so, and does nothing.
pub fn bytes_are_told()
    ensures { BytesTold }
{}
