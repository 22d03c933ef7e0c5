// Stores of cells: what a store means, and what its calls answer, leave and refuse.
#![tactic(auto)]

mod entries;
mod faults;
mod puts;
mod stores;

pub use entries::Entry;
pub use faults::StoreFault;
pub use puts::put_all;
pub use stores::{Store, WritableStore};
