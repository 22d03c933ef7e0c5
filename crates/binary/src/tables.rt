ghost use Rattle.std.specs.Prelude.{◌≡◌, ◌^◌, ◌<◌, ℕ};
ghost use Rattle.field.specs.Algebra.{Lawful};
ghost use Rattle.binary.specs.Binary.{Reduces, Remainder, inverses, polynomials, product as unreduced, products};
ghost use Rattle.std.proofs.Common.{rules};

use field::Field;
use std::marker::PhantomData;

// A polynomial, as a number, by which the polynomials of lower degree are a field of N codes, and the tables of that field.
pub trait Tables<const N: usize> {
    ghost degree: { ℕ };

    ghost modulus: { ℕ };

    ghost Q: { ℕ };

    const Q: u8;

    // Entry b of row a is a times b.
    fn product_table() -> &'static [[u8; N]; N]
        ensures { result.now ≡ products degree modulus };

    // Entry a is the inverse of a, and 0 at 0.
    fn inverse_table() -> &'static [u8; N]
        ensures { result.now ≡ inverses degree modulus };

    ghost sized: { Q ≡ 2 ^ degree };

    ghost wide: { N ≡ 2 ^ degree };

    ghost lawful: { Lawful (polynomials degree modulus) };

    ghost reduces: { Reduces degree modulus };
}

// The polynomials over two elements, multiplied and inverted by the tables of an instance.
pub struct Binary<T, const N: usize> {
    tables: PhantomData<T>,
}

impl<T: Tables<N>, const N: usize> Field for Binary<T, N> {
    ghost algebra = { polynomials T.degree T.modulus };

    ghost Q = { T.Q };

    ghost lawful = { Prim.search rules };

    ghost sized = { Prim.search rules };

    const Q: u8 = T::Q;

    fn add(a: u8, b: u8) -> u8 {
        if a < Self::Q && b < Self::Q { a ^ b } else { 0 }
    }

    // Each is its own negative.
    fn neg(a: u8) -> u8 {
        if a < Self::Q { a } else { 0 }
    }

    fn mul(a: u8, b: u8) -> u8
        ensures exact { result ≡ (polynomials T.degree T.modulus).times a b }
        ensures reduced { a < T.Q → b < T.Q → Remainder T.degree T.modulus (unreduced a b T.degree) result }
    {
        if a < Self::Q && b < Self::Q {
            T::product_table()[a as usize][b as usize]
        } else {
            0
        }
    }

    fn inv(a: u8) -> Option<u8> {
        if 0 < a && a < Self::Q {
            Some(T::inverse_table()[a as usize])
        } else {
            None
        }
    }
}
