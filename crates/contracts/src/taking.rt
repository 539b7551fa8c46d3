ghost use Rattle.std.specs.Prelude.{◌≡◌, ◌<◌, ◌≤◌, is_some, nat_lt};
ghost use Rattle.contracts.specs.Lines.{within, week_with, part_with, some_week, some_part, own_takes_by, rest, takes, delivers};
ghost use Rattle.contracts.specs.Rows.{listed, row_in};
ghost use Rattle.contracts.specs.Seen.{rest_month, seen};
ghost use Rattle.contracts.specs.Table.{covers, nth, size};
ghost use Rattle.contracts.specs.Views.{table_of};

use crate::contract::Contract;
use crate::line::{Line, RestOf};
use crate::table::ContractTable;
use calendar::Maturity;
use days::Day;

impl<P: Drop> ContractTable<P> {
    // Whether a contract is open, has the day and lies wholly in the day's month.
    fn is_within(&self, contract: Contract, day: Day) -> bool
        ensures { result ≡ within (table_of self.now) (listed contract) day.number }
    {
        let month = day.month();
        self.is_open(contract.terms)
            && contract.covers(day)
            && (contract.terms.first.month() == month && contract.last.month() == month)
    }

    // Whether a contract is a week of the instrument that holds the day within its month. Instrument and day stay two
    // parameters: a struct of both would be taken apart again in each body.
    fn is_week_with(&self, instrument: u8, day: Day, contract: Contract) -> bool
        ensures { result ≡ week_with (table_of self.now) instrument day.number (listed contract) }
    {
        contract.terms.instrument == instrument
            && contract.terms.maturity == Maturity::Week
            && self.is_within(contract, day)
    }

    // The same of a part of a week: Monday to Friday, or the weekend.
    fn is_part_with(&self, instrument: u8, day: Day, contract: Contract) -> bool
        ensures { result ≡ part_with (table_of self.now) instrument day.number (listed contract) }
    {
        contract.terms.instrument == instrument
            && matches!(
                contract.terms.maturity,
                Maturity::Workdays | Maturity::Weekend
            )
            && self.is_within(contract, day)
    }

    fn has_week(&self, instrument: u8, day: Day) -> bool
        ensures { result ≡ some_week (table_of self.now) instrument day.number }
    {
        self.contracts
            .rows
            .iter()
            .any(|c| self.is_week_with(instrument, day, *c))
    }

    fn has_part(&self, instrument: u8, day: Day) -> bool
        ensures { result ≡ some_part (table_of self.now) instrument day.number }
    {
        self.contracts
            .rows
            .iter()
            .any(|c| self.is_part_with(instrument, day, *c))
    }

    // The contract at a place of the table.
    pub fn contract_at(&self, place: usize) -> Option<Contract>
        ensures row { row_in result ≡ nth (table_of self.now) place }
        ensures there { is_some result ≡ nat_lt place (size (table_of self.now)) }
    {
        self.contracts.rows.get(place).copied()
    }

    // Whether an open week, or part of a week, takes the day: a week goes before its parts.
    fn own_takes(&self, contract: Contract, day: Day) -> bool
        ensures { result ≡ own_takes_by (table_of self.now) (listed contract) day.number }
    {
        let instrument = contract.terms.instrument;
        self.horizon < day
            && (self.is_week_with(instrument, day, contract)
                || self.is_part_with(instrument, day, contract) && !self.has_week(instrument, day))
    }

    // The month that is the date's, or the one after it.
    fn rest_month(&self, which: RestOf) -> u16
        ensures { result ≡ rest_month self.now.date.number which }
    {
        match which {
            RestOf::ThisMonth => self.date.month(),
            RestOf::NextMonth => self.date.month() + 1,
        }
    }

    // Whether the rest of a month takes the day.
    fn rest_takes(&self, instrument: u8, which: RestOf, day: Day) -> bool
        ensures { result ≡ takes (table_of self.now) (rest instrument (rest_month self.now.date.number which)) day.number }
    {
        day > self.horizon
            && (day.month() == self.rest_month(which)
                && !(self.has_week(instrument, day) || self.has_part(instrument, day)))
    }

    // Whether a line takes a day.
    pub fn takes(&self, line: Line, day: Day) -> bool
        ensures { result ≡ takes (table_of self.now) (seen self.now.date.number line) day.number }
    {
        match line {
            Line::Day(_, own) => own == day && day <= self.horizon,
            Line::Rest(instrument, which) => self.rest_takes(instrument, which, day),
            Line::Own(place) => self
                .contract_at(place)
                .is_some_and(|contract| self.own_takes(contract, day)),
        }
    }

    // Whether a line delivers on a day.
    pub fn delivers(&self, line: Line, day: Day) -> bool
        ensures { result ≡ delivers (table_of self.now) (seen self.now.date.number line) day.number }
    {
        match line {
            Line::Day(_, own) => own == day,
            Line::Rest(instrument, which) => self.rest_takes(instrument, which, day),
            Line::Own(place) => self
                .contract_at(place)
                .is_some_and(|contract| contract.covers(day)),
        }
    }
}
