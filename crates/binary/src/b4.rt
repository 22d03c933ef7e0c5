ghost use Rattle.std.specs.Prelude.{◌≡◌, refl};
ghost use Rattle.std.proofs.Common.{lit<};
ghost use Rattle.binary.specs.Polynomials.{polynomials_lawful, remainder_of_product};

use crate::tables::{Binary, Tables};

// Entry b of row a is a times b, reduced by x^2 + x + 1.
const PRODUCTS: [[u8; 4]; 4] = [[0, 0, 0, 0], [0, 1, 2, 3], [0, 2, 3, 1], [0, 3, 1, 2]];

// Entry a is the inverse of a, and 0 at 0.
const INVERSES: [u8; 4] = [0, 1, 3, 2];

// The instance of x^2 + x + 1, of degree 2.
pub struct Quadratic;

// An instance: its numbers, its tables and the proofs that are computed at them.
impl Tables<4> for Quadratic {
    ghost degree = { 2 };

    ghost modulus = { 7 };

    ghost Q = { 4 };

    ghost sized = { refl };

    ghost wide = { refl };

    ghost lawful = { polynomials_lawful 2 7 (lit< tt) tt tt tt tt tt tt };

    ghost reduces = { remainder_of_product 2 7 tt tt };

    const Q: u8 = 4;

    fn product_table() -> &'static [[u8; 4]; 4] {
        &PRODUCTS
    }

    fn inverse_table() -> &'static [u8; 4] {
        &INVERSES
    }
}

// The polynomials over two elements of degree below 2.
pub type B4 = Binary<Quadratic, 4>;
