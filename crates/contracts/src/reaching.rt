ghost use Rattle.std.specs.Prelude.{◌≡◌, ℕ};
ghost use Rattle.contracts.specs.Lines.{is_day_line, is_own_line, gives_on, gives, goes_to, instr_of, reaches};
ghost use Rattle.contracts.specs.Rows.{listed};
ghost use Rattle.contracts.specs.Seen.{seen};
ghost use Rattle.contracts.specs.Table.{nth};
ghost use Rattle.contracts.specs.Views.{table_of};

use crate::contract::Contract;
use crate::line::Line;
use crate::table::ContractTable;
use calendar::Maturity;
use days::Day;

impl<P: Drop> ContractTable<P> {
    // The number of a line's instrument.
    pub fn instrument_of(&self, line: Line) -> u8
        ensures { result ≡ instr_of (table_of self.now) (seen self.now.date.number line) }
    {
        match line {
            Line::Day(instrument, _) | Line::Rest(instrument, _) => instrument,
            Line::Own(place) => self
                .contract_at(place)
                .map_or(0, |contract| contract.terms.instrument),
        }
    }

    // Whether the contract at a place goes to a line, with its whole quantity.
    pub fn reaches(&self, place: usize, line: Line) -> bool
        ensures { result ≡ reaches (table_of self.now) place (seen self.now.date.number line) }
    {
        let Some(contract) = self.contract_at(place) else {
            return false;
        };
        self.instrument_of(line) == contract.terms.instrument && self.goes_to(place, contract, line)
    }

    fn goes_to(&self, place: usize, contract: Contract, line: Line) -> bool
        requires { listed contract ≡ nth (table_of self.now) place }
        ensures { result ≡ goes_to (table_of self.now) place (seen self.now.date.number line) }
    {
        if contract.terms.maturity == Maturity::SingleDay {
            is_line_of_day(contract.terms.first, line)
        } else if self.is_open(contract.terms) {
            line == Line::Own(place)
        } else {
            self.gives(contract, line)
        }
    }

    // Whether a line takes one of a contract's days after the date.
    fn gives(&self, contract: Contract, line: Line) -> bool
        ensures { result ≡ gives (table_of self.now) (listed contract) (seen self.now.date.number line) }
    {
        // As a chain with `any` the proof did not close: its closure owes that each number is a day's.
        for number in contract.terms.first.number..contract.last.number + 1 {
            if self.gives_on(contract, line, Day { number }) {
                return true;
            }
        }
        false
    }

    fn gives_on(&self, contract: Contract, line: Line, day: Day) -> bool
        ensures { result ≡ gives_on (table_of self.now) (listed contract) (seen self.now.date.number line) day.number }
    {
        contract.covers(day) && self.date < day && self.takes(line, day)
    }
}

// A `match`, as the borrow checker's part of the proof is not made for `matches!` with a guard here.
fn is_line_of_day(first: Day, line: Line) -> bool
    ensures { (date : ℕ) → result ≡ is_day_line first.number (seen date line) }
{
    match line {
        Line::Day(_, day) => day == first,
        Line::Rest(_, _) | Line::Own(_) => false,
    }
}
