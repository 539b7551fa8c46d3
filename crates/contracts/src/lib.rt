// Instruments and contracts, the rules that every table of them keeps, and the lines of a table.
#![tactic(auto)]

mod adding;
mod contract;
mod hours;
mod kind;
mod line;
mod lines;
mod reaching;
mod table;
mod taking;

pub use contract::{Contract, Instrument, Terms};
pub use kind::Kind;
pub use line::{Line, RestOf};
pub use table::ContractTable;
