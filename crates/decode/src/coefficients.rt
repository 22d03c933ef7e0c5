// Polynomials of the search, by their coefficients, the lowest first.
ghost use Rattle.std.specs.Prelude.{◌≡◌, ◌-◌, ◌<◌, ◌∷◌, replicate};
ghost use Rattle.field.specs.Algebra.{ops};
ghost use Rattle.decode.specs.Width.{top, width};
ghost use Rattle.decode.specs.Coefficients.{mix, raise, before as coefficient_before};

use field::Field;
use std::array;

// At most this many points are taken at a time.
pub const POINTS: usize = 16;

// The weights of the search stay below twice the number of points.
pub(crate) const WIDTH: usize = 2 * POINTS;

// The coefficient before the place k, and 0 before the first.
fn before(p: &[u8; WIDTH], k: usize) -> u8
    requires { k < width }
    ensures { result ≡ coefficient_before 0 p.now 0 k }
{
    if k == 0 { 0 } else { p[k - 1] }
}

// X - u times the polynomial, cut to the width.
pub(crate) fn times_factor<F: Field>(p: &[u8; WIDTH], u: u8) -> [u8; WIDTH]
    ensures { result ≡ raise (ops F.algebra) (F.algebra.minus u) 0 p.now }
{
    let a = F::neg(u);
    array::from_fn(|k| {
        let low = before(p, k);
        F::add(F::mul(a, p[k]), low)
    })
}

// p times the one and q times the other.
pub(crate) fn combine<F: Field>(p: u8, xs: &[u8; WIDTH], q: u8, ys: &[u8; WIDTH]) -> [u8; WIDTH]
    ensures { result ≡ mix (ops F.algebra) p xs.now q ys.now }
{
    array::from_fn(|k| F::add(F::mul(p, xs[k]), F::mul(q, ys[k])))
}

// The constant c.
pub(crate) fn constant(c: u8) -> [u8; WIDTH]
    ensures { result ≡ c ∷ replicate top 0 }
{
    let mut made = [0; WIDTH];
    made[0] = c;
    made
}
