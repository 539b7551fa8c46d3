ghost use Rattle.std.specs.Prelude.{◌≡◌, ◌^◌, ◌≤◌};
ghost use Rattle.terms.specs.Amounts.{amount_size};
ghost use Rattle.books.specs.Journal.{amount_of};
ghost use Rattle.books.specs.Shifts.{movement_of, shift_by};

use crate::entry::{Call, Entry, Shift, Trade};
use terms::{Additive, Amount};

impl Trade {
    // Quantity and value: quantity × price.
    pub fn amount(self) -> Amount
        ensures value { result ≡ amount_of self }
        ensures bound { amount_size result ≤ 2 ^ 62 }
    {
        Amount {
            quantity: i64::from(self.quantity),
            value: i64::from(self.quantity) * i64::from(self.price),
        }
    }
}

impl Call {
    // What the call moves, if it is taken, where its entry is as given.
    pub fn shift(self, entry: Entry) -> Shift
        ensures { movement_of result ≡ shift_by entry self }
    {
        let held = entry.trade;
        match self {
            Call::Enter(trade) => Shift {
                contract: trade.contract,
                amount: trade.amount(),
                from: None,
                to: Some(trade.account),
            },
            Call::Cancel(_) => Shift {
                contract: held.contract,
                amount: held.amount(),
                from: Some(held.account),
                to: None,
            },
            Call::Transfer(_, account) => Shift {
                contract: held.contract,
                amount: held.amount(),
                from: Some(held.account),
                to: Some(account),
            },
            Call::LimitMember(contract, _) | Call::LimitAgents(contract, _) => Shift {
                contract,
                amount: Amount::zero(),
                from: None,
                to: None,
            },
        }
    }
}
