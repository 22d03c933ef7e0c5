ghost use Rattle.std.specs.Prelude.{◌≡◌, refl};
ghost use Rattle.std.proofs.Common.{lit<};
ghost use Rattle.binary.specs.Polynomials.{polynomials_lawful, remainder_of_product};

use crate::tables::{Binary, Tables};

// Entry b of row a is a times b, reduced by x^3 + x + 1.
const PRODUCTS: [[u8; 8]; 8] = [
    [0, 0, 0, 0, 0, 0, 0, 0],
    [0, 1, 2, 3, 4, 5, 6, 7],
    [0, 2, 4, 6, 3, 1, 7, 5],
    [0, 3, 6, 5, 7, 4, 1, 2],
    [0, 4, 3, 7, 6, 2, 5, 1],
    [0, 5, 1, 4, 2, 7, 3, 6],
    [0, 6, 7, 1, 5, 3, 2, 4],
    [0, 7, 5, 2, 1, 6, 4, 3],
];

// Entry a is the inverse of a, and 0 at 0.
const INVERSES: [u8; 8] = [0, 1, 5, 6, 7, 2, 3, 4];

// The instance of x^3 + x + 1, of degree 3.
pub struct Cubic;

// An instance: its numbers, its tables and the proofs that are computed at them.
impl Tables<8> for Cubic {
    ghost degree = { 3 };

    ghost modulus = { 11 };

    ghost Q = { 8 };

    ghost sized = { refl };

    ghost wide = { refl };

    ghost lawful = { polynomials_lawful 3 11 (lit< tt) tt tt tt tt tt tt };

    ghost reduces = { remainder_of_product 3 11 tt tt };

    const Q: u8 = 8;

    fn product_table() -> &'static [[u8; 8]; 8] {
        &PRODUCTS
    }

    fn inverse_table() -> &'static [u8; 8] {
        &INVERSES
    }
}

// The polynomials over two elements of degree below 3.
pub type B8 = Binary<Cubic, 8>;
