// Days, months and weekdays from 2000 to 2099.
#![tactic(auto)]

mod day;
mod days;
mod months;
mod weekday;

pub use day::Day;
pub use weekday::Weekday;
