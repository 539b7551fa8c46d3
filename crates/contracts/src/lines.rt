ghost use Rattle.std.specs.Prelude.{◌≡◌, ◌+◌, ◌-◌, ◌++◌, map, IfOk, OnOk};
ghost use Rattle.std.specs.List.{range_with_len};
ghost use Rattle.contracts.specs.Lines.{day, timely, owns, lines, has_line};
ghost use Rattle.contracts.specs.Rows.{listed};
ghost use Rattle.contracts.specs.Seen.{seen};
ghost use Rattle.contracts.specs.Views.{table_of};

use crate::contract::Contract;
use crate::line::{Line, RestOf};
use crate::table::ContractTable;
use calendar::Maturity;
use days::Day;
use std::alloc::{AllocError, Global};

impl<P: Drop> ContractTable<P> {
    // All lines, in the order in which they are used everywhere: each instrument's days and its two rests, then the
    // contracts with lines of their own.
    pub fn lines(&self, heap: Global) -> Result<Vec<Line>, AllocError>
        ensures { IfOk result (λ v. map (seen self.now.date.number) v.items ≡ lines (table_of self.now)) }
    {
        let mut lines = Vec::new(heap);
        for i in self.instruments.rows.iter() {
            self.push_timely(i.number, &mut lines)?;
        }
        self.push_own(&mut lines)?;
        Ok(lines)
    }

    fn push_timely(&self, instrument: u8, lines: &mut Vec<Line>) -> Result<(), AllocError>
        ensures { OnOk result (map (seen self.now.date.number) lines.new.items ≡ map (seen self.now.date.number) lines.old.items ++ timely (table_of self.now) instrument) }
    {
        self.push_days(instrument, lines)?;
        lines.push(Line::Rest(instrument, RestOf::ThisMonth))?;
        lines.push(Line::Rest(instrument, RestOf::NextMonth))?;
        Ok(())
    }

    fn push_days(&self, instrument: u8, lines: &mut Vec<Line>) -> Result<(), AllocError>
        ensures { OnOk result (map (seen self.now.date.number) lines.new.items ≡ map (seen self.now.date.number) lines.old.items ++ map (day instrument) (range_with_len (self.now.date.number + 1) (self.now.horizon.number - self.now.date.number))) }
    {
        for number in self.date.number + 1..self.horizon.number + 1 {
            lines.push(Line::Day(instrument, Day { number }))?;
        }
        Ok(())
    }

    fn push_own(&self, lines: &mut Vec<Line>) -> Result<(), AllocError>
        ensures { OnOk result (map (seen self.now.date.number) lines.new.items ≡ map (seen self.now.date.number) lines.old.items ++ owns (table_of self.now) 0 (table_of self.now).contracts) }
    {
        for (i, c) in self.contracts.rows.iter().enumerate() {
            if self.has_line(*c) {
                lines.push(Line::Own(i))?;
            }
        }
        Ok(())
    }

    // Whether a contract has a line of its own.
    pub fn has_line(&self, contract: Contract) -> bool
        ensures { result ≡ has_line (table_of self.now) (listed contract) }
    {
        self.is_open(contract.terms) && contract.terms.maturity != Maturity::SingleDay
    }
}
