// Plates: a field, a shape and a store, and the five calls on them.
#![tactic(auto)]

mod calls;
mod coded;
mod faults;
mod plates;
mod reads;
mod writes;

pub use calls::{Call, Reply};
pub use faults::PlateFault;
pub use plates::Plate;
