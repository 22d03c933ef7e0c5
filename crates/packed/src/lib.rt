// Stores over lent bytes. How bytes hold cells is a packing of its own.
#![tactic(auto)]

mod packing;
mod store;

pub use packing::{Packing, front};
pub use store::Packed;
