ghost use Rattle.std.specs.Prelude.{◌≡◌};
ghost use Rattle.calendar.specs.Periods.{last_of};

use crate::kind::Kind;
use calendar::{Maturity, Period};
use days::Day;

// What is dealt in: a type of contract on one load profile.
#[derive(PartialEq, Eq, Debug, Drop)]
pub struct Instrument<P> {
    pub number: u8,
    pub kind: Kind,
    pub profile: P,
}

// What is said of a contract that is added to a table.
#[derive(Clone, Copy, PartialEq, Eq, Debug)]
pub struct Terms {
    pub number: u16,
    pub instrument: u8,
    pub maturity: Maturity,
    pub first: Day,
    // The last registration day: a contract is open while it lies after the date, and then running.
    pub registration: Day,
}

// A contract of a table, with its last day.
#[derive(Clone, Copy, PartialEq, Eq, Debug)]
pub struct Contract {
    pub terms: Terms,
    pub last: Day,
    ghost ends: { last.number ≡ last_of terms.maturity terms.first.number },
}

impl Contract {
    ghost use Rattle.contracts.specs.Rows.{listed};
    ghost use Rattle.contracts.specs.Table.{covers};

    // The days on which it delivers.
    pub(crate) fn period(self) -> Period
        ensures first { result.first.number ≡ self.terms.first.number }
        ensures last { result.last.number ≡ self.last.number }
    {
        Period {
            first: self.terms.first,
            last: self.last,
        }
    }

    pub fn covers(self, day: Day) -> bool
        ensures { result ≡ covers (listed self) day.number }
    {
        self.period().covers(day)
    }
}
