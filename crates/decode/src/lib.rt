// The polynomial that all but a few of given points lie on.
#![tactic(auto)]

mod coefficients;
mod key;
mod newton;
mod sample;
mod search;

pub use coefficients::POINTS;
pub use search::decode;
