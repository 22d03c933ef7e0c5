// The report of one line of a job, as bytes.
#![tactic(auto)]

mod buffer;
mod kinds;
mod puts;
mod write;

pub use kinds::Report;
pub use write::{write_header, write_report};
