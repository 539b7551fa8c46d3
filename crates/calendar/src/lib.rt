// Maturities and their periods, load profiles, and delivery hours.
#![tactic(auto)]

mod hours;
mod load;
mod maturity;
mod period;
mod profile;

pub use hours::{hours_of_day, hours_of_period, published_hours};
pub use load::Load;
pub use maturity::Maturity;
pub use period::Period;
pub use profile::Profile;
