// The key equation: a pair of polynomials n and e with n(u) = z e(u) at each point (u, z), of least weight.
ghost use Rattle.std.specs.Prelude.{◌≡◌, ℕ, ◌+◌, ◌-◌, ◌<◌, ◌≤◌, length};
ghost use Rattle.decode.specs.Pairs.{discrepancy_of, raised_of, mixed_of, step_of, Solution};

use crate::coefficients::{WIDTH, combine, constant, times_factor};
use crate::sample::Sample;
use field::Field;
use poly::evaluate;

// e is the error locator. The degree of n is at most the weight, that of e at most the weight less d.
#[derive(Drop)]
pub(crate) struct Pair {
    n: [u8; WIDTH],
    pub(crate) e: [u8; WIDTH],
    weight: usize,
}

// n less the value times e, at the point.
fn discrepancy<F: Field>(x: &Pair, point: (u8, u8)) -> u8
    ensures { result ≡ discrepancy_of F.algebra x.now point }
{
    let n = evaluate::<F>(&x.n, point.0);
    let e = evaluate::<F>(&x.e, point.0);
    F::add(n, F::neg(F::mul(point.1, e)))
}

// X - u times both.
fn raised<F: Field>(x: &Pair, u: u8) -> Pair
    requires { x.now.weight < 100 }
    ensures { result ≡ raised_of F.algebra x.now u }
{
    Pair {
        n: times_factor::<F>(&x.n, u),
        e: times_factor::<F>(&x.e, u),
        weight: x.weight + 1,
    }
}

// p times the one less q times the other.
fn mixed<F: Field>(p: u8, x: &Pair, q: u8, y: &Pair) -> Pair
    ensures { result ≡ mixed_of F.algebra p x.now q y.now }
{
    let m = F::neg(q);
    Pair {
        n: combine::<F>(p, &x.n, m, &y.n),
        e: combine::<F>(p, &x.e, m, &y.e),
        weight: x.weight,
    }
}

// Both pairs made to meet one point more; the lighter one that does not is raised.
fn step<F: Field>(a: Pair, b: Pair, point: (u8, u8)) -> (Pair, Pair)
    requires { (a.weight < 100) × (b.weight < 100) }
    ensures { result ≡ step_of F.algebra point a b }
{
    let da = discrepancy::<F>(&a, point);
    let db = discrepancy::<F>(&b, point);
    match (da, db) {
        (0, 0) => (a, b),
        (0, _) => (a, raised::<F>(&b, point.0)),
        (_, 0) => (raised::<F>(&a, point.0), b),
        _ if a.weight <= b.weight => (raised::<F>(&a, point.0), mixed::<F>(da, &b, db, &a)),
        _ => (mixed::<F>(db, &a, da, &b), raised::<F>(&b, point.0)),
    }
}

impl<'a, F: Field> Sample<'a, F> {
    // A pair that meets every point, of least weight.
    pub(crate) fn solve(&self) -> Pair
        ensures { Solution F.algebra self.now.d self.now.points.now result }
    {
        let mut a = Pair {
            n: constant(1),
            e: constant(0),
            weight: 0,
        };
        let mut b = Pair {
            n: constant(0),
            e: constant(1),
            weight: self.d,
        };
        for point in self.points {
            (a, b) = step::<F>(a, b, *point);
        }
        if a.weight <= b.weight { a } else { b }
    }
}
