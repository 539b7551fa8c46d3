// What a book opens with: accounts, opening positions and concentration limits, over the contracts of a table.
#![tactic(auto)]

mod adding;
mod finding;
mod opening;
mod rows;
mod starting;

pub use opening::Opening;
pub use rows::{Limit, MOST_ACCOUNTS, MOST_LIMITS, MOST_ROWS, Opened};
