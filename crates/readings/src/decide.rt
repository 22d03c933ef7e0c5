ghost use Rattle.std.specs.Prelude.{◌≡◌};
ghost use Rattle.readings.specs.Readings.{answer_fault_code, Answers, OneExplains, NearAnswered, usable};

use crate::kinds::{AnswerFault, AnsweredLine, Reading};
use crate::usable::Usable;
use fault::{Fault, FaultCode, Part};
use field::Field;

impl Fault for AnswerFault {
    ghost coded = { answer_fault_code };

    fn code(&self) -> FaultCode {
        match self {
            AnswerFault::TooFewSymbols => Part::Line.refusal(40, 0),
            AnswerFault::NoPolynomial => Part::Line.refusal(41, 0),
        }
    }
}

// What the readings of a line say of the symbol at its first place, where H is the polynomial of degree at most d along the line.
// Readings whose marks cannot be told apart, or that are too many, count as none.
pub fn answer<F: Field>(d: usize, readings: &[Reading]) -> Result<AnsweredLine, AnswerFault>
    ensures answer { Answers F.algebra d (usable F.algebra.size readings.now) result }
    ensures one { OneExplains F.algebra d (usable F.algebra.size readings.now) }
    ensures near { NearAnswered F.algebra d (usable F.algebra.size readings.now) result }
{
    Usable::<F>::new(d, readings).decide()
}
