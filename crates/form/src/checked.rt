ghost use Rattle.std.specs.Prelude.{◌≡◌, IfOk, Ok};
ghost use Rattle.space.specs.Places.{Point};
ghost use Rattle.space.specs.Points.{at_point, at_place};
ghost use Rattle.form.specs.Forms.{Leading, symbol_at, value_at};
ghost use Rattle.form.specs.Sheets.{check_answer};

use crate::evaluate::value_of;
use crate::sheet::Form;
use field::Field;
use space::{PointFault, check_point, point_of};
use std::marker::PhantomData;

// A form that was checked over the field F, so that only a point or a place is refused.
#[derive(Drop)]
pub struct CheckedForm<'a, F: Field> {
    pub form: Form<'a>,
    pub(crate) field: PhantomData<F>,
    ghost checked: { check_answer F.algebra form ≡ Ok tt },
}

impl<'a, F: Field> CheckedForm<'a, F> {
    // The value at a point of the shape over its field.
    fn at(&self, p: [u8; 4]) -> u8
        requires { Point self.now.form.shape.q self.now.form.shape.m p }
        ensures exact { let f = self.now.form in result ≡ value_at F.algebra f.shape.m f.shape.d f.coefficients.now p }
        ensures leading { let f = self.now.form in Leading F.algebra f.shape.m f.shape.d f.coefficients.now p result }
    {
        value_of::<F>(self.form.shape, p, self.form.coefficients)
    }

    // The value at a point.
    pub fn value(&self, p: [u8; 4]) -> Result<u8, PointFault>
        ensures answer { let f = self.now.form in result ≡ at_point F.algebra f.shape.q f.shape.m p (Ok (value_at F.algebra f.shape.m f.shape.d f.coefficients.now p)) }
        ensures leading { let f = self.now.form in IfOk result (Leading F.algebra f.shape.m f.shape.d f.coefficients.now p) }
    {
        check_point::<F>(self.form.shape, p)?;
        Ok(self.at(p))
    }

    // The symbol of the form's codeword at a place.
    pub fn symbol(&self, place: usize) -> Result<u8, PointFault>
        ensures { let f = self.now.form in result ≡ at_place F.algebra f.shape.q f.shape.m place (Ok (symbol_at F.algebra f.shape.m f.shape.d f.coefficients.now place)) }
    {
        let p = point_of::<F>(self.form.shape, place)?;
        Ok(self.at(p))
    }
}
