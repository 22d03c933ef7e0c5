ghost use Rattle.std.specs.Prelude.{◌≡◌, ◌<◌, IfOk, Ok, OnOk};
ghost use Rattle.field.specs.Algebra.{ops};
ghost use Rattle.field.specs.Vectors.{along};
ghost use Rattle.space.specs.Places.{Point, Normal, normal, place_of, point_of};
ghost use Rattle.space.specs.Points.{point_fault_code, bad_coordinate, checked, first_bad, normal_form, NormalAnswer, Stands, at_point, location, place_answer, point_answer};

use crate::faults::PointFault;
use crate::places::{divisor_of, scale, sum};
use crate::points::{Location, NormalForm};
use crate::shape::Shape;
use fault::{Fault, FaultCode, Part};
use field::Field;

impl Fault for PointFault {
    ghost coded = { point_fault_code };

    fn code(&self) -> FaultCode {
        match *self {
            PointFault::OtherField => Part::Plate.refusal(20, 0),
            PointFault::NotACoordinate { position } => Part::Plate.refusal(23, position),
            PointFault::AllZero => Part::Plate.refusal(24, 0),
            PointFault::NoPlace { place } => Part::Plate.refusal(30, place),
        }
    }
}

// The point w + t v.
pub fn combine<F: Field>(w: [u8; 4], t: u8, v: [u8; 4]) -> [u8; 4]
    ensures { result ≡ along (ops F.algebra) w v t }
{
    sum::<F>(w, scale::<F>(t, v))
}

// The point over its divisor; none where the divisor has no inverse.
pub fn normalise<F: Field>(p: [u8; 4]) -> Option<NormalForm>
    ensures { result ≡ normal_form F.algebra p }
{
    let divisor = divisor_of(p);
    let over = F::inv(divisor)?;
    Some(NormalForm {
        point: scale::<F>(over, p),
        divisor,
    })
}

impl Shape {
    // Whether no point has x as its coordinate i.
    fn is_bad(self, i: usize, x: u8) -> bool
        ensures { result ≡ bad_coordinate self.q self.m i x }
    {
        x >= self.q || (i > self.m && x != 0)
    }

    // Refuses the first coordinate that no point has.
    fn check_coordinates(self, p: [u8; 4]) -> Result<(), PointFault>
        ensures exact { result ≡ checked (Ok tt) (first_bad self.q self.m 0 p) }
        ensures good { OnOk result (Point self.q self.m p) }
    {
        for (position, x) in p.iter().enumerate() {
            if self.is_bad(position, *x) {
                return Err(PointFault::NotACoordinate { position });
            }
        }
        Ok(())
    }

    // The normal form of a point of the shape: only the point 0 has none.
    fn normal_of<F: Field>(self, p: [u8; 4]) -> Option<NormalForm>
        requires point { Point self.q self.m p }
        requires same { self.q ≡ F.algebra.size }
        ensures { NormalAnswer F.algebra self.m p result }
    {
        normalise::<F>(p)
    }
}

// Whether the point is one of the shape, over the shape's field.
pub fn check_point<F: Field>(shape: Shape, p: [u8; 4]) -> Result<(), PointFault>
    ensures answer { result ≡ at_point F.algebra shape.q shape.m p (Ok tt) }
    ensures good { OnOk result ((shape.q ≡ F.algebra.size) × Point shape.q shape.m p) }
{
    if shape.q != F::Q {
        return Err(PointFault::OtherField);
    }
    shape.check_coordinates(p)
}

// The place of a point's normal form, and the divisor.
pub fn locate<F: Field>(shape: Shape, p: [u8; 4]) -> Result<Location, PointFault>
    ensures answer { result ≡ location F.algebra shape.q shape.m p }
    ensures stands { IfOk result (Stands F.algebra shape.q shape.m p) }
{
    check_point::<F>(shape, p)?;
    let normal = shape.normal_of::<F>(p).ok_or(PointFault::AllZero)?;
    Ok(Location {
        place: shape.rank(normal.point),
        divisor: normal.divisor,
    })
}

// The place of a point's normal form.
pub fn place_of<F: Field>(shape: Shape, p: [u8; 4]) -> Result<usize, PointFault>
    ensures answer { result ≡ place_answer F.algebra shape.q shape.m p }
    ensures back { IfOk result (λ i. (i < shape.n) × (point_of shape.q shape.m i ≡ normal F.algebra p)) }
{
    locate::<F>(shape, p).map(|location| location.place)
}

// The normal point at a place.
pub fn point_of<F: Field>(shape: Shape, place: usize) -> Result<[u8; 4], PointFault>
    ensures answer { result ≡ point_answer F.algebra shape.q shape.m place }
    ensures back { IfOk result (λ p. Normal shape.q shape.m p × (place_of shape.q shape.m p ≡ place)) }
{
    if shape.q != F::Q {
        return Err(PointFault::OtherField);
    }
    if place >= shape.n {
        return Err(PointFault::NoPlace { place });
    }
    Ok(shape.unrank(place))
}
