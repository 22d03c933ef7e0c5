// The points of one search.
ghost use Rattle.std.specs.Prelude.{◌≡◌, ◌<◌, ◌≤◌, ◌==◌, nat_lt, ◌&&◌, ◌↔◌, IsTrue, IsSome, IfSome, length};
ghost use Rattle.std.specs.List.{AllByRecursion, list_any, list_all};
ghost use Rattle.field.specs.Algebra.{ops};
ghost use Rattle.poly.specs.Poly.{Distinct};
ghost use Rattle.decode.specs.Width.{points_most};
ghost use Rattle.decode.specs.Near.{misses, places, Admissible, Codes-prop, Distinct-prop};

use crate::coefficients::POINTS;
use field::Field;
use poly::evaluate;
use std::marker::PhantomData;

// Points, each a place and a value, for a polynomial of degree at most d: codes at distinct places, more than d of them and not too many.
#[derive(Drop)]
pub(crate) struct Sample<'a, F: Field> {
    pub(crate) d: usize,
    pub(crate) points: &'a [(u8, u8)],
    field: PhantomData<F>,
    ghost few: { length points.now ≤ points_most },
    ghost enough: { d < length points.now },
    ghost codes: { AllByRecursion (λ p. (p.0 < F.algebra.size) × (p.1 < F.algebra.size)) points.now } by { Codes-prop F.algebra.size points.now },
    ghost apart: { Distinct (places points.now) } by { Distinct-prop (places points.now) },
}

// Whether a point has the place.
fn has_place(points: &[(u8, u8)], place: u8) -> bool
    ensures { result ≡ list_any (λ p. p.0 == place) points.now }
{
    points.iter().any(|p| p.0 == place)
}

// Whether no two points have one place.
fn apart(points: &[(u8, u8)]) -> bool
    ensures { IsTrue result ↔ Distinct (places points.now) }
{
    // A loop over what is left: each point is asked of those after it, which a chain could only name by an index.
    let mut rest = points;
    while let Some((first, others)) = rest.split_first() {
        if has_place(others, first.0) {
            return false;
        }
        rest = others;
    }
    true
}

// Whether places and values are codes of the field.
fn coded<F: Field>(points: &[(u8, u8)]) -> bool
    ensures { result ≡ list_all (λ p. nat_lt p.0 F.Q && nat_lt p.1 F.Q) points.now }
{
    points.iter().all(|p| p.0 < F::Q && p.1 < F::Q)
}

impl<'a, F: Field> Sample<'a, F> {
    // The points, where a search takes them.
    pub(crate) fn new(d: usize, points: &'a [(u8, u8)]) -> Option<Self>
        ensures taken { IsSome result ↔ Admissible F.algebra d points.now }
        ensures same { IfSome result (λ s. (s.d ≡ d) × (s.points.now ≡ points.now)) }
    {
        if d < points.len() && points.len() <= POINTS && coded::<F>(points) && apart(points) {
            Some(Sample {
                d,
                points,
                field: PhantomData,
            })
        } else {
            None
        }
    }

    // How many of the points the polynomial does not go through.
    pub(crate) fn misses(&self, g: &[u8]) -> usize
        ensures { result ≡ misses (ops F.algebra) g.now self.now.points.now }
    {
        self.points
            .iter()
            .filter(|p| evaluate::<F>(g, p.0) != p.1)
            .count()
    }
}
