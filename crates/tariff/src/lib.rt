// The risk tariff of a contract table: prices, a risk line for every line of the table, price ranges and credits.
#![tactic(auto)]

mod adding;
mod completing;
mod draft;
mod finding;
mod holding;
mod rating;
mod rows;
mod tariff;

pub use draft::Draft;
pub use rows::{Credit, GroupRange, LineName, Prices, Risk, RiskLine, Settlement, Step, Steps};
pub use tariff::Tariff;
