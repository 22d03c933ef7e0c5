ghost use Rattle.std.specs.Prelude.{◌≡◌, IfOk, IfErr, Ok, Err, nat_le};
ghost use Rattle.std.specs.List.{position_from};
ghost use Rattle.form.specs.declared.faults.FormFault.TheVariants.{AtPoint};
ghost use Rattle.space.specs.Places.{Point};
ghost use Rattle.form.specs.Forms.{Leading, VectorsListed, coefficient_count, gap_of, value_at};
ghost use Rattle.form.specs.Soundness.{coefficient_fault, unless};
ghost use Rattle.form.specs.Sheets.{form_fault_code, check_answer, value_answer, symbol_answer};

use crate::checked::CheckedForm;
use crate::faults::FormFault;
use crate::sheet::Form;
use fault::{Fault, FaultCode, Part};
use field::Field;
use space::{PointFault, Shape};
use std::marker::PhantomData;

impl Fault for FormFault {
    ghost coded = { form_fault_code };

    fn code(&self) -> FaultCode {
        match *self {
            FormFault::OtherField => Part::Plate.refusal(20, 0),
            FormFault::WrongCount => Part::Plate.refusal(21, 0),
            FormFault::NotACode { position } => Part::Plate.refusal(22, position),
            FormFault::AtPoint(fault) => fault.code(),
        }
    }
}

// By hand: what a derive writes does not tell the proofs which fault comes of a `?`.
impl From<PointFault> for FormFault {
    ghost from_gives = { λ f r. r ≡ AtPoint f };

    fn from(cause: PointFault) -> FormFault {
        FormFault::AtPoint(cause)
    }
}

// How many coefficients a form of the shape has: C(m + d, d), m being 1 to 3.
pub fn coefficient_count(shape: Shape) -> usize
    ensures count { result ≡ coefficient_count shape.m shape.d }
    ensures listed { VectorsListed shape.m shape.d }
{
    let d = shape.d;
    match shape.m {
        1 => d + 1,
        2 => (d + 1) * (d + 2) / 2,
        _ => (d + 1) * (d + 2) * (d + 3) / 6,
    }
}

// The gap of a shape, (q - d) q^(m - 1).
#[tactic(auto, using(crate::proofs::Gaps::gap_within))]
pub fn gap(shape: Shape) -> usize
    ensures { result ≡ gap_of shape.q shape.m shape.d }
{
    let q = shape.q as usize;
    (q - shape.d) * q.pow(shape.m as u32 - 1)
}

// The first coefficient that is q or more.
fn first_excess(q: u8, coefficients: &[u8]) -> Option<usize>
    ensures { result ≡ position_from (λ c. nat_le q c) 0 coefficients.now }
{
    coefficients.iter().position(|c| *c >= q)
}

// What is wrong with the coefficients as a form of the shape.
fn judge(shape: Shape, coefficients: &[u8]) -> Result<(), FormFault>
    ensures { result ≡ unless (coefficient_fault shape.q shape.m shape.d coefficients.now) (Ok tt) }
{
    if coefficients.len() != coefficient_count(shape) {
        return Err(FormFault::WrongCount);
    }
    if let Some(position) = first_excess(shape.q, coefficients) {
        return Err(FormFault::NotACode { position });
    }
    Ok(())
}

impl<'a> Form<'a> {
    pub fn new(shape: Shape, coefficients: &'a [u8]) -> Form<'a>
        ensures { (result.shape ≡ shape) × (result.coefficients.now ≡ coefficients.now) }
    {
        Form {
            shape,
            coefficients,
            verdict: judge(shape, coefficients),
        }
    }

    // Whether the coefficients are a form of the shape over the field.
    pub fn check<F: Field>(&self) -> Result<(), FormFault>
        ensures { result ≡ check_answer F.algebra self.now }
    {
        if self.shape.q != F::Q {
            return Err(FormFault::OtherField);
        }
        self.verdict
    }

    // The form as one over the field that was checked.
    pub fn check_for<F: Field>(&self) -> Result<CheckedForm<'a, F>, FormFault>
        ensures form { IfOk result (λ c. (c.form ≡ self.now) × (check_answer F.algebra self.now ≡ Ok tt)) }
        ensures fault { IfErr result (λ f. check_answer F.algebra self.now ≡ Err f) }
    {
        self.check::<F>()?;
        Ok(CheckedForm {
            form: *self,
            field: PhantomData,
        })
    }

    // The value at a point.
    pub fn value<F: Field>(&self, p: [u8; 4]) -> Result<u8, FormFault>
        ensures answer { result ≡ value_answer F.algebra self.now p }
        ensures leading { IfOk result (Leading F.algebra self.now.shape.m self.now.shape.d self.now.coefficients.now p) }
    {
        let checked = self.check_for::<F>()?;
        Ok(checked.value(p)?)
    }

    // The symbol of the form's codeword at a place.
    pub fn symbol<F: Field>(&self, place: usize) -> Result<u8, FormFault>
        ensures { result ≡ symbol_answer F.algebra self.now place }
    {
        let checked = self.check_for::<F>()?;
        Ok(checked.symbol(place)?)
    }
}
