ghost use Rattle.std.specs.Prelude.{◌≡◌, ◌<◌, true, [], ◌∷◌, ◌++◌, ◌==◌, map, is_ok, IfOk, if◌then◌else◌};
ghost use Rattle.std.specs.List.{find};
ghost use Rattle.std.specs.Option.{option_map};
ghost use Rattle.terms.specs.Told.{Told};
ghost use Rattle.contracts.specs.Kinds.{is_option};
ghost use Rattle.contracts.specs.Table.{kind_in, is_open};
ghost use Rattle.contracts.specs.Rules.{dates_answer, instrument_refusal, terms_refusal, contract_refusal, same_key, is_repeated, is_near, is_long, on_time, is_due, answer_by};
ghost use Rattle.contracts.specs.Rows.{instr, said_in, listed, told};
ghost use Rattle.contracts.specs.Views.{table_of, empty_table, plus_instrument, plus_contract};

use crate::contract::{Contract, Instrument, Terms};
use crate::kind::Kind;
use crate::table::ContractTable;
use calendar::{Maturity, Period};
use days::Day;
use std::alloc::{AllocError, Global};
use terms::{Bounds, Failure, Refusal, Rows};

impl<P: Drop> ContractTable<P> {
    // An empty table of a date, with its horizon 1 to 14 days later.
    pub fn new(heap: Global, date: Day, horizon: Day) -> Result<ContractTable<P>, Failure>
        ensures { Told table_of result (dates_answer date.number horizon.number) }
    {
        let instruments = Rows::new(heap)?;
        let contracts = Rows::new(heap)?;
        Bounds::DayOffset.admit(i64::from(horizon.days_after(date)))?;
        Ok(ContractTable {
            date,
            horizon,
            instruments,
            contracts,
        })
    }

    // An empty table of 1 January 2000 and the day after it.
    pub fn zero(heap: Global) -> Result<ContractTable<P>, AllocError>
        ensures { IfOk result (λ t. table_of t ≡ empty_table 0 1) }
    {
        Ok(ContractTable {
            date: Day { number: 0 },
            horizon: Day { number: 1 },
            instruments: Rows::new(heap)?,
            contracts: Rows::new(heap)?,
        })
    }

    // Adds an instrument at the end, or refuses it and leaves the table as it was.
    pub fn add_instrument(&mut self, instrument: Instrument<P>) -> Result<(), Refusal>
        ensures answer { result ≡ answer_by (instrument_refusal (table_of self.old).instruments instrument.number) }
        ensures table { table_of self.new ≡ (if is_ok result then plus_instrument (table_of self.old) (instr instrument) else table_of self.old) }
        ensures profiles { self.new.instruments.rows.items ≡ (if is_ok result then self.old.instruments.rows.items ++ instrument ∷ [] else self.old.instruments.rows.items) }
    {
        Bounds::Instrument.admit(i64::from(instrument.number))?;
        if self.kind_of(instrument.number).is_some() {
            return Err(Refusal::RepeatedKey);
        }
        self.instruments.push(instrument)
    }

    // Adds a contract at the end, or refuses it and leaves the table as it was.
    pub fn add_contract(&mut self, terms: Terms) -> Result<(), Refusal>
        ensures answer { result ≡ answer_by (contract_refusal (table_of self.old) (said_in terms)) }
        ensures table { table_of self.new ≡ (if is_ok result then plus_contract (table_of self.old) (said_in terms) else table_of self.old) }
        ensures profiles { self.new.instruments.rows.items ≡ self.old.instruments.rows.items }
    {
        let contract = self.contract_of(terms)?;
        self.contracts.push(contract)
    }

    // A contract that may be added, where there is room for it.
    fn contract_of(&self, terms: Terms) -> Result<Contract, Refusal>
        ensures answer { told result ≡ answer_by (terms_refusal (table_of self.now) (said_in terms)) }
        ensures terms { IfOk result (λ c. c.terms ≡ terms) }
    {
        // One test of both: after `admit(..)?` of each, the proofs of the refusals further down did not close.
        if !Bounds::Contract.holds(i64::from(terms.number))
            || !Bounds::Instrument.holds(i64::from(terms.instrument))
        {
            return Err(Refusal::OutOfRange);
        }
        let kind = self
            .kind_of(terms.instrument)
            .ok_or(Refusal::UnknownReference)?;
        if self.is_repeated(terms) {
            return Err(Refusal::RepeatedKey);
        }
        let period = terms.maturity.period(terms.first)?;
        let contract = Contract {
            terms,
            last: period.last,
        };
        if !self.is_due(kind, contract) {
            return Err(Refusal::DateRule);
        }
        Ok(contract)
    }

    // Whether the rules on the date, the horizon and the last registration day hold.
    fn is_due(&self, kind: Kind, contract: Contract) -> bool
        ensures { result ≡ is_due (table_of self.now) (is_option kind) (listed contract) }
    {
        let terms = contract.terms;
        (terms.registration < terms.first && self.date < contract.last)
            && (self.is_open(terms) || !(is_long(terms.maturity) || kind.is_option()))
            && self.is_on_time(contract)
    }

    // Whether registration goes on after the date.
    pub fn is_open(&self, terms: Terms) -> bool
        ensures { result ≡ is_open (table_of self.now) (said_in terms) }
    {
        self.date < terms.registration
    }

    // Whether a contract starts in the date's month or the next.
    fn is_near(&self, terms: Terms) -> bool
        ensures { result ≡ is_near (table_of self.now) (said_in terms) }
    {
        let month = self.date.month();
        let first = terms.first.month();
        first == month || first == month + 1
    }

    // What each maturity asks of the date and the horizon.
    fn is_on_time(&self, contract: Contract) -> bool
        ensures { result ≡ on_time (table_of self.now) (listed contract) contract.terms.maturity }
    {
        let Contract { terms, last } = contract;
        let first = terms.first;
        let open = self.is_open(terms);
        match terms.maturity {
            Maturity::SingleDay => self.date < first && last <= self.horizon,
            Maturity::Weekend | Maturity::Workdays | Maturity::Week => {
                if open {
                    self.horizon < first
                } else {
                    last <= self.horizon
                }
            }
            Maturity::RestOfMonth => open
                || self.is_near(terms) && first.number <= self.horizon.number + 1,
            Maturity::Month => open || self.is_near(terms),
            Maturity::Quarter | Maturity::Season | Maturity::Year => true,
        }
    }

    // The kind of an instrument, by its number.
    pub fn kind_of(&self, number: u8) -> Option<Kind>
        ensures { result ≡ kind_in (map instr self.now.instruments.rows.items) number }
    {
        self.instrument(number).map(|i| i.kind)
    }

    // An instrument, by its number.
    pub(crate) fn instrument(&self, number: u8) -> Option<&Instrument<P>>
        ensures { option_map (λ i. i.now) result ≡ find (λ i. i.number == number) self.now.instruments.rows.items }
    {
        self.instruments.rows.iter().find(|i| i.number == number)
    }

    // Whether a contract has the number of another, or its instrument, maturity and first day.
    fn is_repeated(&self, terms: Terms) -> bool
        ensures { result ≡ is_repeated (said_in terms) (map listed self.now.contracts.rows.items) }
    {
        self.contracts
            .rows
            .iter()
            .any(|c| has_same_key(terms, c.terms))
    }
}

fn has_same_key(a: Terms, b: Terms) -> bool
    ensures { result ≡ same_key (said_in a) (said_in b) }
{
    b.number == a.number
        || b.instrument == a.instrument && b.maturity == a.maturity && b.first == a.first
}

fn is_long(maturity: Maturity) -> bool
    ensures { result ≡ is_long maturity }
{
    matches!(
        maturity,
        Maturity::Year | Maturity::Season | Maturity::Quarter
    )
}
