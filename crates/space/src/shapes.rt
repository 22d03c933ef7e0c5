ghost use Rattle.std.specs.Prelude.{◌≡◌};
ghost use Rattle.space.specs.Shapes.{ShapeAnswer, shape_fault_code};

use crate::counts::counts_of;
use crate::faults::ShapeFault;
use crate::shape::Shape;
use fault::{Fault, FaultCode, Part};
use field::Field;

impl Fault for ShapeFault {
    ghost coded = { shape_fault_code };

    fn code(&self) -> FaultCode {
        match self {
            ShapeFault::NoColumn => Part::Shape.refusal(1, 0),
            ShapeFault::WrongVariables => Part::Shape.refusal(2, 0),
            ShapeFault::WrongDegree => Part::Shape.refusal(3, 0),
        }
    }
}

impl Shape {
    // Forms of degree d over the field in the coordinates x0 to xm.
    pub fn new<F: Field>(m: usize, d: usize) -> Result<Shape, ShapeFault>
        ensures { ShapeAnswer F.algebra.size m d result }
    {
        let q = F::Q;
        let counts = counts_of(q).ok_or(ShapeFault::NoColumn)?;
        if !(1..=3).contains(&m) {
            return Err(ShapeFault::WrongVariables);
        }
        if !(1..q as usize).contains(&d) {
            return Err(ShapeFault::WrongDegree);
        }
        Ok(Shape {
            q,
            m,
            d,
            n: counts[m - 1],
        })
    }
}
