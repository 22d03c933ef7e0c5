// Newton's interpolation.
ghost use Rattle.std.specs.Prelude.{◌≡◌, ℕ, ◌+◌, ◌-◌, ◌<◌, ◌≤◌};
ghost use Rattle.decode.specs.Fitted.{fitted_of, Interpolated};

use crate::coefficients::{WIDTH, combine, constant, times_factor};
use crate::sample::Sample;
use field::Field;
use poly::evaluate;

// A polynomial p through `count` points, and m, the product of X - u over their places. `count` is no length: both arrays are full.
#[derive(Drop)]
struct Fit {
    p: [u8; WIDTH],
    m: [u8; WIDTH],
    count: usize,
}

// Through one point more.
fn fitted<F: Field>(f: &Fit, point: (u8, u8)) -> Fit
    requires { f.now.count < 100 }
    ensures { result ≡ fitted_of F.algebra f.now point }
{
    let missed = F::add(point.1, F::neg(evaluate::<F>(&f.p, point.0)));
    let over = F::inv(evaluate::<F>(&f.m, point.0)).unwrap_or(0);
    let factor = F::mul(missed, over);
    Fit {
        p: combine::<F>(1, &f.p, factor, &f.m),
        m: times_factor::<F>(&f.m, point.0),
        count: f.count + 1,
    }
}

impl<'a, F: Field> Sample<'a, F> {
    // The polynomial of degree at most d through the first d + 1 points where e does not vanish.
    pub(crate) fn interpolate(&self, e: &[u8; WIDTH]) -> Option<[u8; WIDTH]>
        ensures { Interpolated F.algebra e.now self.now.d self.now.points.now result }
    {
        let mut fit = Fit {
            p: constant(0),
            m: constant(1),
            count: 0,
        };
        // A loop: it builds up the fit and ends with the point that completes it.
        for point in self.points {
            if evaluate::<F>(e, point.0) != 0 {
                fit = fitted::<F>(&fit, *point);
                if fit.count > self.d {
                    return Some(fit.p);
                }
            }
        }
        None
    }
}
