ghost use Rattle.std.specs.Prelude.{◌≡◌, ◌≤◌};
ghost use Rattle.tariff.specs.Settlements.{settlement_of};

use contracts::Line;
use terms::{Gains, Refusal};

// Whether the prices of a session are final.
#[derive(Clone, Copy, PartialEq, Eq, Debug)]
pub enum Settlement {
    Final,
    Provisional,
}

impl TryFrom<u8> for Settlement {
    type Error = Refusal;

    ghost try_from_gives = { λ letter r. r ≡ settlement_of letter };

    fn try_from(letter: u8) -> Result<Settlement, Refusal> {
        match letter {
            b'F' => Ok(Settlement::Final),
            b'P' => Ok(Settlement::Provisional),
            _ => Err(Refusal::Form),
        }
    }
}

// The settlement prices of today and of the day before, in cents per MWh.
#[derive(Clone, Copy, PartialEq, Eq, Debug)]
pub struct Prices {
    pub today: i32,
    pub before: i32,
}

// A line, as a risk line names it.
#[derive(Clone, Copy, PartialEq, Eq, Debug)]
pub enum LineName {
    // An instrument's day, by its offset from the date.
    Day(u8, u8),
    // An instrument's rest of this month, 0, or of the next, 1.
    Rest(u8, u8),
    // A contract's own, by the contract's number.
    Own(u16),
}

// The risk of one unit of a line: its group, its delta in hundredths of MWh, its clearing price, and what it gains in
// each scenario.
#[derive(Clone, Copy, PartialEq, Eq, Debug)]
pub struct Risk {
    pub group: u8,
    pub delta: i32,
    pub price: i32,
    pub gains: Gains,
}

#[derive(Clone, Copy, PartialEq, Eq, Debug)]
pub struct RiskLine {
    pub line: Line,
    pub risk: Risk,
}

// A limit for large positions, and the percentage that lying above it adds.
#[derive(Clone, Copy, PartialEq, Eq, Debug)]
pub struct Step {
    pub limit: i64,
    pub percent: u8,
}

// The limits of a group: those in use, from the first. What lies behind them says nothing. A count beside an array, and no
// vector of the heap or `ArrayVec`: neither is `Copy`, and a row is given and taken by value.
#[derive(Clone, Copy, PartialEq, Eq, Debug)]
pub struct Steps {
    pub used: u8,
    pub each: [Step; 3],
    ghost few: { used ≤ 3 },
}

impl Steps {
    ghost use Rattle.tariff.specs.Rows.{steps_in};

    // The limits in use.
    pub(crate) fn in_use(&self) -> &[Step]
        ensures { result.now ≡ steps_in self.now }
    {
        &self.each[..usize::from(self.used)]
    }
}

// The price range and the limits of a group.
#[derive(Clone, Copy, PartialEq, Eq, Debug)]
pub struct GroupRange {
    pub group: u8,
    pub range: u16,
    pub steps: Steps,
}

// The percentage that is credited between two groups.
#[derive(Clone, Copy, PartialEq, Eq, Debug)]
pub struct Credit {
    pub first: u8,
    pub second: u8,
    pub percent: u8,
}
