ghost use Rattle.std.specs.Prelude.{◌≡◌};
ghost use Rattle.opening.specs.Rules.{row_within, limit_within};

use terms::{Amount, Bounds};

// How many of each an opening holds at most.
pub const MOST_ACCOUNTS: usize = 32;

pub const MOST_ROWS: usize = 4_096;

pub const MOST_LIMITS: usize = 128;

// What an account opens with in a contract, by their numbers.
#[derive(Clone, Copy, PartialEq, Eq, Debug)]
pub struct Opened {
    pub account: u16,
    pub contract: u16,
    pub amount: Amount,
}

impl Opened {
    // Whether the numbers are in their ranges, whatever is listed.
    pub fn is_within(self) -> bool
        ensures { result ≡ row_within self }
    {
        Bounds::Account.holds(i64::from(self.account))
            && Bounds::Contract.holds(i64::from(self.contract))
            && Bounds::Position.holds(self.amount.quantity)
            && Bounds::OpeningValue.holds(self.amount.value)
    }
}

// A contract's limits: on the sum of all accounts, and on the sum of each agent's.
#[derive(Clone, Copy, PartialEq, Eq, Debug)]
pub struct Limit {
    pub contract: u16,
    pub member: u32,
    pub agents: u32,
}

impl Limit {
    // Whether the numbers are in their ranges: other fields and ranges than an opening position's, so no shared text.
    pub fn is_within(self) -> bool
        ensures { result ≡ limit_within self }
    {
        Bounds::Contract.holds(i64::from(self.contract))
            && Bounds::ConcentrationLimit.holds(i64::from(self.member))
            && Bounds::ConcentrationLimit.holds(i64::from(self.agents))
    }
}
