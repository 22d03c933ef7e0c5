ghost use Rattle.std.specs.Prelude.{Some};
ghost use Rattle.readings.specs.Text.{answer_text};

use cells::Entry;
use std::fmt;
use thiserror::Error;

// What was read at a mark of a line: mark t from 1 to q - 1 is that code, mark q is infinity.
#[derive(Clone, Copy, Default)]
pub struct Reading {
    pub mark: u8,
    pub divisor: u8,
    pub entry: Entry,
}

// The symbol that a line gives for its first place. Bit i of `wrong` and of `missing` stands for reading i, counted from 0.
#[derive(PartialEq, Eq, Debug, Drop)]
pub struct AnsweredLine {
    pub symbol: u8,
    pub wrong: u32,
    pub missing: u32,
}

impl fmt::Display for AnsweredLine {
    ghost output = { λ a. Some (answer_text a) };

    fn fmt<W: fmt::Write>(&self, f: &mut fmt::Formatter<W>) -> fmt::Result {
        write!(
            f,
            "{}, wrong bits {}, missing bits {}",
            self.symbol, self.wrong, self.missing
        )
    }
}

// Why readings have no answer.
#[derive(Clone, Copy, PartialEq, Eq, Debug, Error)]
pub enum AnswerFault {
    // Not more than d symbols were read.
    #[error("too few symbols were read on the line")]
    TooFewSymbols,
    // No polynomial of degree at most d is near enough to the symbols read.
    #[error("no polynomial is near enough to the symbols read on the line")]
    NoPolynomial,
}
