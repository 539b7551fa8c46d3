// The table book: it holds every cell, kept up to date at each call, over a journal that it is lent.
#![tactic(auto)]

mod asking;
mod book;
mod changing;
mod ground;
mod posting;
mod reading;
mod starting;
mod sums;
mod table_book;
mod tables;
mod writing;

pub use ground::Ground;
pub use table_book::TableBook;
pub use tables::Tables;
