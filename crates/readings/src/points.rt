// Readings as points of the search.
ghost use Rattle.std.specs.Prelude.{◌≡◌};
ghost use Rattle.readings.specs.Readings.{is_missing};
ghost use Rattle.readings.specs.Points.{point_of, misses_reading};

use crate::kinds::Reading;
use cells::Entry;
use field::{Field, power};
use poly::evaluate;

// The point of a reading with the symbol y.
pub(crate) fn point<F: Field>(d: usize, reading: Reading, y: u8) -> (u8, u8)
    ensures { result ≡ point_of F.algebra d reading y }
{
    let value = F::mul(power::<F>(reading.divisor, d), y);
    if reading.mark == F::Q {
        return (0, value);
    }
    let over = F::inv(reading.mark).unwrap_or(0);
    (over, F::mul(power::<F>(over, d), value))
}

pub(crate) fn lacks_symbol(reading: Reading) -> bool
    ensures { result ≡ is_missing reading }
{
    matches!(reading.entry, Entry::Missing)
}

// Whether a symbol was read, and the polynomial does not go through its point.
pub(crate) fn misses<F: Field>(d: usize, g: &[u8], reading: Reading) -> bool
    ensures { result ≡ misses_reading F.algebra d g.now reading }
{
    match reading.entry {
        Entry::Symbol(y) => {
            let p = point::<F>(d, reading, y);
            evaluate::<F>(g, p.0) != p.1
        }
        Entry::Missing => false,
    }
}
