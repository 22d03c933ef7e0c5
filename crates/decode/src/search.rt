ghost use Rattle.std.specs.Prelude.{◌-◌, ◌/◌};
ghost use Rattle.decode.specs.Near.{Decoded, DecodeAnswer};

use crate::coefficients::WIDTH;
use crate::sample::Sample;
use field::Field;

impl<'a, F: Field> Sample<'a, F> {
    // The coefficients, at most d + 1, that all but a few of the points go through: at most half of the points beyond d + 1 may miss.
    fn near(&self) -> Option<[u8; WIDTH]>
        ensures { Decoded F.algebra self.now.d self.now.points.now result }
    {
        let pair = self.solve();
        let g = self.interpolate(&pair.e)?;
        let few = (self.points.len() - self.d - 1) / 2;
        (self.misses(&g) <= few).then_some(g)
    }
}

// The polynomial of degree at most d that at most half of the points beyond d + 1 miss, its coefficients filled up with zeros.
// None where there is none, and where the points are not codes at distinct places, not more than d, or too many.
pub fn decode<F: Field>(d: usize, points: &[(u8, u8)]) -> Option<[u8; WIDTH]>
    ensures { DecodeAnswer F.algebra d points.now result }
{
    Sample::<F>::new(d, points)?.near()
}
