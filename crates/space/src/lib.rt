// Shapes, points and places.
#![tactic(auto)]

mod answers;
mod counts;
mod faults;
mod places;
mod points;
mod shape;
mod shapes;

pub use answers::{check_point, combine, locate, normalise, place_of, point_of};
pub use faults::{PointFault, ShapeFault};
pub use places::divisor_of;
pub use points::{Location, NormalForm};
pub use shape::Shape;
