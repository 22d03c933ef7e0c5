use readings::AnswerFault;
use thiserror::Error;

// Why a line is not asked, or has no answer.
#[derive(Clone, Copy, PartialEq, Eq, Debug, Error)]
pub enum LineFault {
    #[error("the shape is of another field")]
    OtherField,
    #[error("there is no place {place}")]
    NoPlace { place: usize },
    #[error("there is no place {place} to give the direction")]
    NoDirection { place: usize },
    #[error("place {place} is both the first place and the direction")]
    SamePlace { place: usize },
    #[error("there are not more marks than the degree")]
    TooFewMarks,
    #[error("there are more marks than the field has")]
    TooManyMarks,
    #[error("mark {position} of the list is no mark of the field")]
    NotAMark { position: usize },
    #[error("mark {position} of the list came before")]
    RepeatedMark { position: usize },
    #[error("mark {position} of the list reads no point")]
    ZeroPoint { position: usize },
    #[error(transparent)]
    NoAnswer(AnswerFault),
}
