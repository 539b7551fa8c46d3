// Lines, fields and numbers of a text of bytes, and a cursor over the fields of a line.
#![tactic(auto)]

mod cursor;
mod field;
mod line;

pub use cursor::{at_end, letter_in, number_in, take_letter, take_number};
pub use field::{Field, number};
pub use line::{next_line, split_into};
