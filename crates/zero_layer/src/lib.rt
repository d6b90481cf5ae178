#![tactic(auto)]

mod layer;
mod zeros;

pub use layer::ZeroLayer;
