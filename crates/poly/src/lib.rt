// Polynomials over a field, by their coefficients, the lowest first.
#![tactic(auto)]

ghost use Rattle.std.specs.Prelude.{◌≡◌, ℕ, ◌+◌, ◌-◌, ◌<◌, ◌≤◌};
ghost use Rattle.field.specs.Algebra.{ops};
ghost use Rattle.poly.specs.Poly.{eval};

use field::Field;

// The value at x.
#[tactic(auto, using(crate::proofs::Folds::fold_back))]
pub fn evaluate<F: Field>(coefficients: &[u8], x: u8) -> u8
    ensures { result ≡ eval (ops F.algebra) coefficients.now x }
{
    coefficients
        .iter()
        .rev()
        .fold(0, |total, c| F::add(*c, F::mul(x, total)))
}
