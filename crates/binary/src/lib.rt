// The fields of 4, 8 and 16 symbols: polynomials over two elements, reduced by x^2 + x + 1, x^3 + x + 1 and x^4 + x + 1.
#![tactic(auto)]

mod b16;
mod b4;
mod b8;
mod tables;

pub use b4::{B4, Quadratic};
pub use b8::{B8, Cubic};
pub use b16::{B16, Quartic};
pub use tables::{Binary, Tables};
