ghost use Rattle.std.specs.Prelude.{◌≡◌, ◌^◌, ◌≤◌};
ghost use Rattle.terms.specs.Amounts.{amount_size};
ghost use Rattle.books.specs.Cells.{opens_within};

use contracts::Kind;
use days::Day;
use terms::{Amount, Bounds};

// An account and its agent, by their numbers.
#[derive(Clone, Copy, PartialEq, Eq, Debug)]
pub struct Account {
    pub number: u16,
    pub agent: u8,
}

// A contract that is traded: its type and its last registration day.
#[derive(Clone, Copy, PartialEq, Eq, Debug)]
pub struct Listing {
    pub number: u16,
    pub kind: Kind,
    pub registration: Day,
}

impl Listing {
    // Whether an account may open with the amount: values are kept for forwards and swaps alone.
    pub fn admits(self, amount: Amount) -> bool
        ensures { result ≡ opens_within self.kind amount }
    {
        Bounds::Position.holds(amount.quantity)
            && match self.kind {
                Kind::Forward | Kind::Swap => Bounds::OpeningValue.holds(amount.value),
                Kind::Future | Kind::Option => amount.value == 0,
            }
    }
}

#[derive(Clone, Copy, PartialEq, Eq, Debug)]
pub struct Trade {
    pub account: u16,
    pub contract: u16,
    pub quantity: i32,
    pub price: i32,
}

// A trade in the journal. A cancelled one keeps its place and stands no longer: a bool, since an enum of two would be no
// plainer where each use asks just this.
#[derive(Clone, Copy, PartialEq, Eq, Debug)]
pub struct Entry {
    pub trade: Trade,
    pub stands: bool,
}

impl Entry {
    // An entry that no call has made.
    pub const BLANK: Entry = Entry {
        trade: Trade {
            account: 0,
            contract: 0,
            quantity: 0,
            price: 0,
        },
        stands: false,
    };
}

// What an account has of a contract: at the opening, and by the entries that stand.
#[derive(Clone, Copy, PartialEq, Eq, Debug)]
pub struct Cell {
    pub opening: Amount,
    pub traded: Amount,
}

// What a book is asked. Entries go by their numbers, from 1.
#[derive(Clone, Copy, PartialEq, Eq, Debug)]
pub enum Call {
    Enter(Trade),
    Cancel(u16),
    // An entry, to an account.
    Transfer(u16, u16),
    // A contract's limit on the sum of all accounts.
    LimitMember(u16, u32),
    // A contract's limit on the sum of each agent's accounts.
    LimitAgents(u16, u32),
}

// What a call moves: an amount of a contract, out of an account, into one, or both.
#[derive(Clone, Copy, PartialEq, Eq, Debug)]
pub struct Shift {
    pub contract: u16,
    pub amount: Amount,
    pub from: Option<u16>,
    pub to: Option<u16>,
    ghost small: { amount_size amount ≤ 2 ^ 62 },
}

// What a concentration limit sums up: all accounts, or those of each agent.
#[derive(Clone, Copy, PartialEq, Eq, Debug)]
pub enum Scope {
    Member,
    Agents,
}

// The accounts of one sum: all, or those of one agent.
#[derive(Clone, Copy, PartialEq, Eq, Debug)]
pub enum Whose {
    Everyone,
    Agent(u8),
}
