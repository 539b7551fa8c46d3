// Concentration limits: layers over any book.
#![tactic(auto)]

mod driving;
mod layer;
mod limiting;
mod scope;
mod sum;
mod table;

pub use driving::{drive_under_limit, drive_under_limits};
pub use layer::{AgentLimit, ConcentrationLimit, MemberLimit};
pub use scope::{OfAgents, OfMember, Summing};
pub use table::{LimitTable, Limits};
