// Two cells a byte.
#![tactic(auto)]

ghost use Rattle.std.specs.Prelude.{◌≡◌, ◌%◌, ◌<◌, ◌==◌, refl};
ghost use Rattle.half_store.specs.HalfStores.{HalvesTold, half_meaning, half_kept, half_row, half_of, with_half};
ghost use Rattle.half_store.specs.Rows.{halves_sound, halves_told};

use cells::Entry;
use packed::{Packed, Packing, front};

// Two cells each: 65,536 cells.
const MOST_BYTES: usize = 32_768;

// The lower four bits of a byte are its first cell, the upper its second. The half 15 is missing, any other is that symbol. Bytes past 32,768 are no cells.
#[derive(Clone, Copy)]
pub struct Halves;

pub type HalfStore<'a> = Packed<'a, Halves>;

impl Packing for Halves {
    ghost meaning = { half_meaning };

    ghost kept = { half_kept };

    ghost written = { half_row };

    ghost ALPHABET = { 15 };

    const ALPHABET: u8 = 15;

    fn count(bytes: &[u8]) -> usize {
        2 * front(bytes, MOST_BYTES).len()
    }

    fn entry(bytes: &[u8], i: usize) -> Option<Entry> {
        let byte = front(bytes, MOST_BYTES).get(i / 2)?;
        Some(Entry::of_code(half_of(*byte, i), Self::ALPHABET))
    }

    #[tactic(auto, using(crate::specs::Rows::half_count, crate::proofs::HalfCells::half_put, crate::proofs::HalfCells::half_rest))]
    fn set(bytes: &mut [u8], i: usize, entry: Entry) {
        if i < Self::count(bytes) {
            let byte = &mut bytes[i / 2];
            *byte = with_half(*byte, i, entry.code(Self::ALPHABET));
        }
    }

    ghost alphabet = { λ bs. refl };

    ghost sound = { halves_sound };

    ghost told = { halves_told };
}

// Whether cell `i` is the lower half of its byte.
fn is_lower(i: usize) -> bool
    ensures { result ≡ (i % 2 == 0) }
{
    i % 2 == 0
}

// The half of `byte` that is cell `i`.
fn half_of(byte: u8, i: usize) -> u8
    ensures { result ≡ half_of byte (i % 2) }
{
    if is_lower(i) { byte % 16 } else { byte / 16 }
}

// `byte` with the lower four bits of `half` in cell `i`.
fn with_half(byte: u8, i: usize, half: u8) -> u8
    ensures { result ≡ with_half byte (i % 2) (half % 16) }
{
    if is_lower(i) {
        byte / 16 * 16 + half % 16
    } else {
        half % 16 * 16 + byte % 16
    }
}

// What a store means and what no call changes tell which bytes stand there. This call says so, and does nothing.
pub fn halves_are_told()
    ensures { HalvesTold }
{}
