// What every part of the station shares: why something is refused, the ranges of numbers, and sums.
#![tactic(auto)]

mod additive;
mod amounts;
mod bounds;
mod failure;
mod refusal;
mod rows;

pub use additive::{Additive, less, total};
pub use amounts::{Amount, Gains};
pub use bounds::Bounds;
pub use failure::Failure;
pub use refusal::Refusal;
pub use rows::Rows;
