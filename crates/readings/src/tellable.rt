// Whether marks can be told apart.
ghost use Rattle.std.specs.Prelude.{◌≡◌};
ghost use Rattle.readings.specs.Readings.{has_mark, marked};

use crate::kinds::Reading;

// Whether a reading has the mark.
fn has_mark(mark: u8, readings: &[Reading]) -> bool
    ensures { result ≡ has_mark mark readings.now }
{
    readings.iter().any(|r| r.mark == mark)
}

// Whether each mark is 1 to q, and none comes twice.
pub(crate) fn tellable(q: u8, readings: &[Reading]) -> bool
    ensures { result ≡ marked q readings.now }
{
    // A loop over what is left: each mark is asked of those after it, which a chain could only name by an index.
    let mut rest = readings;
    while let Some((first, others)) = rest.split_first() {
        if first.mark < 1 || first.mark > q || has_mark(first.mark, others) {
            return false;
        }
        rest = others;
    }
    true
}
