// Books: what accounts have of contracts, and the calls that change it.
#![tactic(auto)]

mod book;
mod driving;
mod entry;
mod numbered;
mod range;
mod shift;

pub use book::{Book, Holdings};
pub use driving::{ask, drive};
pub use entry::{Account, Call, Cell, Entry, Listing, Scope, Shift, Trade, Whose};
pub use numbered::{Numbered, place_of, row_of};
