// A stride over a store.
#![tactic(auto)]

ghost use Rattle.stride.specs.Strides.{StrideTold};

use cells::Store;
use layer::Layer;

mod pair;
mod pairs;
mod placing;

pub use pair::{StrideFault, StridePair};

// Entry i is entry (step × i) mod n below. Over a store with fewer than n entries there is none.
pub type Stride<S> = Layer<S, StridePair>;

// What a stride means and what no call changes tell what the store below means and keeps. This call says so, and does nothing.
pub fn below_stride_is_told<S: Store>()
    ensures { StrideTold S.Kept }
{}
