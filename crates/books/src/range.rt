ghost use Rattle.std.specs.Prelude.{◌≡◌};
ghost use Rattle.books.specs.Answers.{out_of_range, is_quantity, trade_within};
ghost use Rattle.books.specs.Limits.{is_of};

use crate::entry::{Account, Call, Trade, Whose};
use terms::Bounds;

// Whether a quantity can be traded.
fn is_quantity(quantity: i32) -> bool
    ensures { result ≡ is_quantity quantity }
{
    quantity != 0 && Bounds::Position.holds(i64::from(quantity))
}

impl Trade {
    // Whether account, contract, quantity and price are in their ranges.
    pub fn is_within_ranges(self) -> bool
        ensures { result ≡ trade_within self }
    {
        Bounds::Account.holds(i64::from(self.account))
            && Bounds::Contract.holds(i64::from(self.contract))
            && is_quantity(self.quantity)
            && Bounds::Price.holds(i64::from(self.price))
    }
}

impl Call {
    // Whether a number of the call is out of its range.
    pub fn is_out_of_range(self) -> bool
        ensures { result ≡ out_of_range self }
    {
        match self {
            Call::Enter(trade) => !trade.is_within_ranges(),
            Call::Cancel(number) => !Bounds::Entry.holds(i64::from(number)),
            Call::Transfer(number, account) => {
                !(Bounds::Entry.holds(i64::from(number))
                    && Bounds::Account.holds(i64::from(account)))
            }
            Call::LimitMember(contract, most) | Call::LimitAgents(contract, most) => {
                !(Bounds::Contract.holds(i64::from(contract))
                    && Bounds::ConcentrationLimit.holds(i64::from(most)))
            }
        }
    }
}

impl Whose {
    // Whether an account is one of the sum.
    pub fn has(self, account: Account) -> bool
        ensures { result ≡ is_of self account }
    {
        match self {
            Whose::Everyone => true,
            Whose::Agent(agent) => account.agent == agent,
        }
    }
}
