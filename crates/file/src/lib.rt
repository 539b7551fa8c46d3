// The margin file, read entire or refused by number and line.
#![tactic(auto)]

mod adding;
mod adding_contracts;
mod body;
mod calls;
mod contents;
mod counts;
mod fault;
mod filling;
mod head;
mod lines;
mod parts;
mod reading;
mod tables;

pub use calls::Calls;
pub use fault::{Fault, Unread};
pub use filling::{read, tables_of};
pub use lines::MOST_BYTES;
pub use tables::Tables;
