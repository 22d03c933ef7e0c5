ghost use Rattle.std.specs.Prelude.{◌≡◌, Ok};
ghost use Rattle.form.specs.Soundness.{coefficient_fault, unless};

use crate::faults::FormFault;
use space::Shape;

// Coefficients as a form of a shape: the highest power of x0 first, among equals of x1, and so on.
// Making it never refuses; what is wrong with the coefficients is found once and kept, and calls on it refuse by that.
#[derive(Clone, Copy)]
pub struct Form<'a> {
    pub shape: Shape,
    pub coefficients: &'a [u8],
    pub(crate) verdict: Result<(), FormFault>,
    ghost judged: { verdict ≡ unless (coefficient_fault shape.q shape.m shape.d coefficients.now) (Ok tt) },
}
