// From what an account holds of each contract to its position on every line, before netting and after it.
#![tactic(auto)]

mod breakdown;
mod example;
mod netting;
mod own;
mod positions;
mod relation;
mod step;
mod tier;

pub use example::published_netting;
pub use positions::{Positions, positions_of};
