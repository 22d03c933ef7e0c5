// From the readings of a line to the symbol that they give.
#![tactic(auto)]

mod decide;
mod kinds;
mod points;
mod tellable;
mod usable;

pub use decide::answer;
pub use kinds::{AnswerFault, AnsweredLine, Reading};
