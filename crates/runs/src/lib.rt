// Runs of calls on a plate, and the law over them.
#![tactic(auto)]

mod sequence;

pub use sequence::run;
