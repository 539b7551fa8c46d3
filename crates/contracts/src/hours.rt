ghost use Rattle.std.specs.Prelude.{◌≡◌, ℕ, ◌+◌, ◌-◌, ◌*◌, ◌<◌, ◌≤◌, true, if◌then◌else◌, count_ones};
ghost use Rattle.contracts.specs.Hours.{mask_in, line_hours, contract_hours};
ghost use Rattle.contracts.specs.Lines.{delivers, instr_of};
ghost use Rattle.contracts.specs.Rows.{listed};
ghost use Rattle.contracts.specs.Seen.{seen};
ghost use Rattle.contracts.specs.Views.{table_of};

use crate::contract::Contract;
use crate::line::Line;
use crate::table::ContractTable;
use calendar::{Period, Profile, hours_of_day, hours_of_period};
use days::Day;

impl<P: Profile + Drop> ContractTable<P> {
    // The delivery hours of an instrument on a day; none where there is no such instrument.
    pub fn hours_on(&self, instrument: u8, day: Day) -> u32
        ensures value { result ≡ count_ones (mask_in P.Profile.mask self.now.instruments.rows.items instrument day.number) }
        ensures bound { result ≤ 25 }
    {
        self.instrument(instrument)
            .map_or(0, |i| hours_of_day(&i.profile, day))
    }

    // The delivery hours of all days of a contract: none where its profile delivers on none of them.
    pub fn hours_of_contract(&self, contract: Contract) -> u32
        ensures value { result ≡ contract_hours (mask_in P.Profile.mask self.now.instruments.rows.items) (listed contract) }
        ensures bound { result ≤ 25 * (contract.last.number - contract.terms.first.number + 1) }
    {
        self.instrument(contract.terms.instrument)
            .map_or(0, |i| hours_of_period(&i.profile, contract.period()))
    }

    // The delivery hours of the days on which a line delivers.
    pub fn hours_of_line(&self, line: Line) -> u32
        ensures { result ≡ line_hours (mask_in P.Profile.mask self.now.instruments.rows.items) (table_of self.now) (seen self.now.date.number line) }
    {
        let span = self.span_of(line);
        let mut sum = 0;
        // As a chain with `sum` the proof did not close: its closure owes that each number is a day's.
        for number in span.first.number..span.last.number + 1 {
            sum += self.line_hours_on(line, Day { number });
        }
        sum
    }

    fn line_hours_on(&self, line: Line, day: Day) -> u32
        ensures value { result ≡ (if delivers (table_of self.now) (seen self.now.date.number line) day.number then count_ones (mask_in P.Profile.mask self.now.instruments.rows.items (instr_of (table_of self.now) (seen self.now.date.number line)) day.number) else 0) }
        ensures bound { result ≤ 25 }
    {
        if self.delivers(line, day) {
            self.hours_on(self.instrument_of(line), day)
        } else {
            0
        }
    }

    // Days outside which a line does not deliver.
    fn span_of(&self, line: Line) -> Period
        ensures { (d : ℕ) → d < 36525 → delivers (table_of self.now) (seen self.now.date.number line) d ≡ true → (result.first.number ≤ d) × (d ≤ result.last.number) }
    {
        match line {
            Line::Day(_, day) => span(day, day),
            Line::Rest(_, _) => {
                let end = Day { number: 36_524 };
                span(self.date, self.date.last_of_month_after(1).unwrap_or(end))
            }
            Line::Own(place) => self.contract_at(place).map_or(
                span(self.date, self.horizon),
                |contract| contract.period(),
            ),
        }
    }
}

// The days from one to another, or the one alone where the other lies before it.
fn span(first: Day, last: Day) -> Period
    ensures start { result.first.number ≡ first.number }
    ensures end { last.number ≤ result.last.number }
{
    Period {
        first,
        last: first.max(last),
    }
}
