// Layers over stores: one layer, by where it places its entries below.
#![tactic(auto)]

mod calls;
mod layers;
mod placing;
#[cfg(test)]
mod tests;

pub use calls::{put_at, read_at, wipe_at};
pub use layers::Layer;
pub use placing::Placing;
