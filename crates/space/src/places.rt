ghost use Rattle.std.specs.Prelude.{◌≡◌, ◌^◌, ◌<◌, ◌≤◌, not, ◌==◌, length};
ghost use Rattle.std.specs.List.{AllByRecursion, find};
ghost use Rattle.field.specs.Algebra.{ops};
ghost use Rattle.field.specs.Vectors.{add, scale as scaled};
ghost use Rattle.space.specs.Places.{Normal, divisor, place_of, point_of, group_of, grouped, number};

use crate::shape::Shape;
use field::Field;

impl Shape {
    // q to the power k.
    #[tactic(auto, using(crate::proofs::Ranks::power_within))]
    fn power(self, k: usize) -> usize
        requires { k ≤ self.m }
        ensures { (result ≡ self.q ^ k) × (result ≤ 4096) }
    {
        (self.q as usize).pow(k as u32)
    }

    // The number that the digits write to base q, the highest first.
    fn number(self, digits: &[u8]) -> usize
        requires few { length digits.now ≤ self.m }
        requires codes { AllByRecursion (λ x. x < self.q) digits.now }
        ensures { result ≡ number self.q (length digits.now) digits.now }
    {
        let mut number = 0;
        for x in digits {
            number = number * self.q as usize + *x as usize;
        }
        number
    }

    // The place of a normal point.
    pub(crate) fn rank(self, p: [u8; 4]) -> usize
        requires { Normal self.q self.m p }
        ensures exact { result ≡ place_of self.q self.m p }
        ensures below { result < self.n }
        ensures back { point_of self.q self.m result ≡ p }
    {
        let mut place = 0;
        // An index, also in `group`, which `enumerate` would only give again: how many coordinates follow it is the power that is added.
        for first in 0..self.m {
            if p[first] != 0 {
                return place + self.number(&p[first + 1..=self.m]);
            }
            place += self.power(self.m - first);
        }
        place
    }

    // The first coordinate of the point at the place, and the number of its later ones.
    fn group(self, place: usize) -> (usize, usize)
        ensures { result ≡ group_of self.q self.m place }
    {
        let mut rest = place;
        for first in 0..self.m {
            let size = self.power(self.m - first);
            if rest < size {
                return (first, rest);
            }
            rest -= size;
        }
        (self.m, rest)
    }

    // The point with 1 at `first` and the digits of `number` after it.
    fn spelled(self, first: usize, number: usize) -> [u8; 4]
        requires { first ≤ self.m }
        ensures { result ≡ grouped self.q self.m first number }
    {
        let q = self.q as usize;
        let mut rest = number;
        let mut p = [0; 4];
        p[first] = 1;
        // An index: over `iter_mut().rev()` an invariant sees the lent places and not the point, and the proof did not close.
        for i in (first + 1..self.m + 1).rev() {
            p[i] = (rest % q) as u8;
            rest /= q;
        }
        p
    }

    // The normal point at a place.
    pub(crate) fn unrank(self, place: usize) -> [u8; 4]
        ensures exact { result ≡ point_of self.q self.m place }
        ensures normal { Normal self.q self.m result }
        ensures back { place < self.n → place_of self.q self.m result ≡ place }
    {
        let (first, number) = self.group(place);
        self.spelled(first, number)
    }
}

// The first that is not 0. A function of its own: with the `unwrap_or` in one chain the proof does not follow the search.
fn first_other(xs: &[u8]) -> Option<u8>
    ensures { result ≡ find (λ x. not (x == 0)) xs.now }
{
    xs.iter().copied().find(|x| *x != 0)
}

// The first coordinate that is not 0; 0 where every one is.
pub fn divisor_of(p: [u8; 4]) -> u8
    ensures { result ≡ divisor p }
{
    first_other(&p).unwrap_or(0)
}

pub(crate) fn scale<F: Field>(k: u8, p: [u8; 4]) -> [u8; 4]
    ensures { result ≡ scaled (ops F.algebra) k p }
{
    p.map(|x| F::mul(k, x))
}

pub(crate) fn sum<F: Field>(p: [u8; 4], r: [u8; 4]) -> [u8; 4]
    ensures { result ≡ add (ops F.algebra) p r }
{
    // By their names: a chain over two arrays would name each of them by an index.
    let [a, b, c, d] = p;
    let [e, f, g, h] = r;
    [F::add(a, e), F::add(b, f), F::add(c, g), F::add(d, h)]
}
