use space::PointFault;
use thiserror::Error;

// Why coefficients are no form of a shape, or why a form is not evaluated.
#[derive(Clone, Copy, PartialEq, Eq, Debug, Error)]
pub enum FormFault {
    #[error("the shape's q is not the field's")]
    OtherField,
    #[error("the coefficients are not as many as a form of the shape has")]
    WrongCount,
    #[error("coefficient {position} is q or more")]
    NotACode { position: usize },
    #[error(transparent)]
    AtPoint(PointFault),
}
