// A symbol from one line: ask, gather, answer.
#![tactic(auto)]

mod ask;
mod corrections;
mod faults;
mod lines;
mod moves;

pub use ask::check_line;
pub use corrections::correct;
pub use faults::LineFault;
pub use lines::{AskedLine, GatheredLine, LineRequest, Target};
