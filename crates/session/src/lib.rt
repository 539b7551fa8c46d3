// A session: a margin file read, its book opened under its limits, its calls made, and what is printed of them.
#![tactic(auto)]

mod lines;
mod printing;
mod running;

pub use lines::{Answer, Told};
pub use printing::printed;
pub use running::answers_to;
