use thiserror::Error;

// Why numbers make no shape.
#[derive(Clone, Copy, PartialEq, Eq, Debug, Error)]
pub enum ShapeFault {
    #[error("the field's q has no column in the table of counts")]
    NoColumn,
    #[error("m is not 1 to 3")]
    WrongVariables,
    #[error("d is not 1 to q - 1")]
    WrongDegree,
}

// Why a point has no place, or a place no point.
#[derive(Clone, Copy, PartialEq, Eq, Debug, Error)]
pub enum PointFault {
    #[error("the shape's q is not the field's")]
    OtherField,
    #[error("coordinate {position} is q or more, or not 0 past xm")]
    NotACoordinate { position: usize },
    #[error("every coordinate is 0")]
    AllZero,
    #[error("there is no place {place}")]
    NoPlace { place: usize },
}
