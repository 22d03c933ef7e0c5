// The value of a form, coordinate by coordinate: with k coefficients and degree d it takes 2 k - 1 + d products.
ghost use Rattle.std.specs.Prelude.{◌≡◌, ℕ, suc, ◌+◌, ◌-◌, ◌<◌, ◌≤◌, length, drop};
ghost use Rattle.field.specs.Algebra.{ops, Codes};
ghost use Rattle.poly.specs.Poly.{last};
ghost use Rattle.form.specs.Forms.{Multiples, OnLines, coefficient_count, value_at};
ghost use Rattle.form.specs.Evaluation.{Powers, nested, terms};

use field::Field;
use space::Shape;

// The powers of x up to the shape's degree.
fn powers<F: Field>(shape: Shape, x: u8) -> [u8; 16]
    ensures { Powers (ops F.algebra) x shape.d result }
{
    let mut table = [1; 16];
    // An index: each step reads one entry and writes the next, where a loop over lent entries would carry the last one beside it.
    for e in 0..shape.d {
        table[e + 1] = F::mul(table[e], x);
    }
    table
}

// `over` at two coordinates, the fewest that a shape has.
// Each degree of the first one has one coefficient here: a loop takes them in turn, since a call for each would cost more than its products.
fn over_two<'a, F: Field>(xs: &[u8], table: &[u8; 16], d: usize, cs: &'a [u8]) -> (u8, &'a [u8])
    requires two { length xs.now ≡ 2 }
    requires low { d < 16 }
    requires right { Powers (ops F.algebra) (last 0 xs.now) d table.now }
    requires enough { terms (length xs.now) d ≤ length cs.now }
    ensures made { result.0 ≡ nested (ops F.algebra) xs.now d cs.now }
    ensures rest { result.1.now ≡ drop (terms (length xs.now) d) cs.now }
{
    let x = xs[0];
    let (own, rest) = cs.split_at(d + 1);
    let mut total = F::mul(own[0], table[0]);
    for (c, power) in own[1..].iter().zip(&table[1..]) {
        total = F::add(F::mul(total, x), F::mul(*c, *power));
    }
    (total, rest)
}

// The value of the form of degree d over the coordinates xs, whose coefficients cs begins with, and what follows them.
// The form is taken as a polynomial in its first coordinate; `table` has the powers of the last one.
fn over<'a, F: Field>(xs: &[u8], table: &[u8; 16], d: usize, cs: &'a [u8]) -> (u8, &'a [u8])
    requires many { 1 < length xs.now }
    requires low { d < 16 }
    requires right { Powers (ops F.algebra) (last 0 xs.now) d table.now }
    requires enough { terms (length xs.now) d ≤ length cs.now }
    ensures made { result.0 ≡ nested (ops F.algebra) xs.now d cs.now }
    ensures rest { result.1.now ≡ drop (terms (length xs.now) d) cs.now }
{
    if xs.len() == 2 {
        return over_two::<F>(xs, table, d, cs);
    }
    let x = xs[0];
    let later = &xs[1..];
    let (mut total, mut rest) = over::<F>(later, table, 0, cs);
    for j in 0..d {
        let (more, after) = over::<F>(later, table, j + 1, rest);
        total = F::add(F::mul(total, x), more);
        rest = after;
    }
    (total, rest)
}

// The value at p of the form of the shape with the coefficients cs.
pub(crate) fn value_of<F: Field>(shape: Shape, p: [u8; 4], cs: &[u8]) -> u8
    requires whole { length cs.now ≡ coefficient_count shape.m shape.d }
    requires point { Codes F.algebra p }
    requires codes { Codes F.algebra cs.now }
    ensures exact { result ≡ value_at F.algebra shape.m shape.d cs.now p }
    ensures multiples { Multiples F.algebra shape.d }
    ensures lines { OnLines F.algebra shape.d }
{
    let table = powers::<F>(shape, p[shape.m]);
    let (value, _) = over::<F>(&p[..shape.m + 1], &table, shape.d, cs);
    value
}
