ghost use Rattle.std.specs.Prelude.{◌≡◌, ◌+◌, ◌&&◌, Some, None, if◌then◌else◌, nat_le, nat_lt};
ghost use Rattle.std.specs.Option.{option_map};
ghost use Rattle.days.specs.Months.{month_of};
ghost use Rattle.contracts.specs.Lines.{day, rest, own};
ghost use Rattle.contracts.specs.Rules.{is_numbered};
ghost use Rattle.contracts.specs.Seen.{seen};
ghost use Rattle.contracts.specs.Table.{size};
ghost use Rattle.tariff.specs.Rows.{ranged};
ghost use Rattle.tariff.specs.Rules.{line_in, named, LinesNamed, place_of, risk_in, range_in, same_pair, is_paired, percent_left};
ghost use Rattle.tariff.specs.Views.{table_in, said_of};

use crate::draft::Draft;
use crate::rows::{Credit, GroupRange, LineName, Risk};
use contracts::{Line, RestOf};
use days::Day;

impl<P: Drop> Draft<P> {
    // The line that a name means, where the contract table has it. Every line of the table has a name.
    pub fn line_of(&self, name: LineName) -> Option<Line>
        ensures value { option_map (seen (table_in self.now).date) result ≡ line_in (table_in self.now) (named (table_in self.now) name) }
        ensures law { LinesNamed (table_in self.now) }
    {
        match name {
            LineName::Day(instrument, offset) => self.day_line(instrument, offset),
            LineName::Rest(instrument, month) => self.rest_line(instrument, month),
            LineName::Own(number) => self.own_line(number),
        }
    }

    fn day_line(&self, instrument: u8, offset: u8) -> Option<Line>
        ensures { option_map (seen (table_in self.now).date) result ≡ line_in (table_in self.now) (day instrument ((table_in self.now).date + offset)) }
    {
        let number = self.contracts.date.number + u16::from(offset);
        if self.has_day(instrument, number) {
            Some(Line::Day(instrument, Day { number }))
        } else {
            None
        }
    }

    // Whether an instrument is listed and a day lies after the date, by the horizon.
    fn has_day(&self, instrument: u8, number: u16) -> bool
        ensures { result ≡ (is_numbered instrument (table_in self.now).instruments && (nat_lt (table_in self.now).date number && nat_le number (table_in self.now).horizon)) }
    {
        self.contracts.kind_of(instrument).is_some()
            && self.contracts.date.number < number
            && number <= self.contracts.horizon.number
    }

    fn rest_line(&self, instrument: u8, month: u8) -> Option<Line>
        ensures { option_map (seen (table_in self.now).date) result ≡ line_in (table_in self.now) (rest instrument (month_of (table_in self.now).date + month)) }
    {
        self.contracts.kind_of(instrument)?;
        match month {
            0 => Some(Line::Rest(instrument, RestOf::ThisMonth)),
            1 => Some(Line::Rest(instrument, RestOf::NextMonth)),
            _ => None,
        }
    }

    // The own line of the contract with a number.
    fn own_line(&self, number: u16) -> Option<Line>
        ensures { option_map (seen (table_in self.now).date) result ≡ line_in (table_in self.now) (own (place_of number (table_in self.now).contracts)) }
    {
        let place = self.place_of(number)?;
        let contract = self.contracts.contract_at(place)?;
        self.contracts
            .has_line(contract)
            .then_some(Line::Own(place))
    }

    // The place of the contract with a number.
    fn place_of(&self, number: u16) -> Option<usize>
        ensures { result ≡ (if nat_lt (place_of number (table_in self.now).contracts) (size (table_in self.now)) then Some (place_of number (table_in self.now).contracts) else None) }
    {
        self.contracts
            .contracts
            .rows
            .iter()
            .position(|c| c.terms.number == number)
    }

    // The risk of a line.
    pub fn risk_of(&self, line: Line) -> Option<Risk>
        ensures { result ≡ risk_in (said_of self.now).risks (seen (table_in self.now).date line) }
    {
        self.risks
            .rows
            .iter()
            .find(|r| r.line == line)
            .map(|r| r.risk)
    }

    // The price range and limits of a group.
    pub fn range_of(&self, group: u8) -> Option<GroupRange>
        ensures { option_map ranged result ≡ range_in (said_of self.now).ranges group }
    {
        self.ranges.rows.iter().find(|r| r.group == group).copied()
    }

    // Whether two groups have a credit already, in either order.
    pub(crate) fn is_paired(&self, credit: Credit) -> bool
        ensures { result ≡ is_paired credit (said_of self.now).credits }
    {
        self.credits.rows.iter().any(|c| is_same_pair(credit, *c))
    }

    // The percentage of the last credit, above which the next may not lie.
    pub(crate) fn percent_left(&self) -> u8
        ensures { result ≡ percent_left (said_of self.now).credits }
    {
        self.credits.rows.last().map_or(100, |c| c.percent)
    }
}

fn is_same_pair(a: Credit, b: Credit) -> bool
    ensures { result ≡ same_pair a b }
{
    b.first == a.first && b.second == a.second || b.first == a.second && b.second == a.first
}
