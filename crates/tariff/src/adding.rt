ghost use Rattle.std.specs.Prelude.{◌≡◌, false, [], ◌∷◌, ◌++◌, length, is_ok, IfOk, if◌then◌else◌};
ghost use Rattle.terms.specs.Told.{Told};
ghost use Rattle.contracts.specs.Rows.{instr, said_in};
ghost use Rattle.contracts.specs.Rules.{dates_answer, answer_by};
ghost use Rattle.contracts.specs.Table.{size};
ghost use Rattle.contracts.specs.Views.{table_of, empty_table, plus_instrument, plus_contract};
ghost use Rattle.tariff.specs.Settlements.{is_final};
ghost use Rattle.tariff.specs.Rules.{spot_refusal, prices_refusal};
ghost use Rattle.tariff.specs.Views.{table_in, said_of, draft_of, no_rows, empty_by, plus_spot, plus_prices};

use crate::draft::Draft;
use crate::holding::is_price;
use crate::rows::{Prices, Settlement};
use contracts::{ContractTable, Instrument, Terms};
use days::Day;
use std::alloc::{AllocError, Global};
use terms::{Failure, Refusal, Rows};

impl<P: Drop> Draft<P> {
    // No rows yet, on a date with its horizon 1 to 14 days later.
    pub fn new(
        heap: Global,
        date: Day,
        horizon: Day,
        settlement: Settlement,
    ) -> Result<Draft<P>, Failure>
        ensures { Told draft_of result (empty_by (is_final settlement) (dates_answer date.number horizon.number)) }
    {
        let contracts = ContractTable::new(heap, date, horizon)?;
        Ok(Draft::on(heap, contracts, settlement)?)
    }

    // Provisional, with no rows, on the zero contract table.
    pub fn zero(heap: Global) -> Result<Draft<P>, AllocError>
        ensures { IfOk result (λ d. draft_of d ≡ (empty_table 0 1, no_rows false)) }
    {
        let contracts = ContractTable::zero(heap)?;
        Draft::on(heap, contracts, Settlement::Provisional)
    }

    // No rows yet, on an empty contract table.
    fn on(
        heap: Global,
        contracts: ContractTable<P>,
        settlement: Settlement,
    ) -> Result<Draft<P>, AllocError>
        requires { table_of contracts ≡ empty_table contracts.date.number contracts.horizon.number }
        ensures { IfOk result (λ d. draft_of d ≡ (table_of contracts, no_rows (is_final settlement))) }
    {
        Ok(Draft {
            contracts,
            settlement,
            spots: Rows::new(heap)?,
            prices: Rows::new(heap)?,
            risks: Rows::new(heap)?,
            ranges: Rows::new(heap)?,
            credits: Rows::new(heap)?,
        })
    }

    // Adds an instrument and its spot price at the end, or refuses them and leaves all as it was.
    pub fn add_instrument(&mut self, instrument: Instrument<P>, spot: i32) -> Result<(), Refusal>
        ensures answer { result ≡ answer_by (spot_refusal (table_in self.old) instrument.number spot) }
        ensures draft { draft_of self.new ≡ (if is_ok result then (plus_instrument (table_in self.old) (instr instrument), plus_spot (said_of self.old) spot) else draft_of self.old) }
        ensures profiles { self.new.contracts.instruments.rows.items ≡ (if is_ok result then self.old.contracts.instruments.rows.items ++ instrument ∷ [] else self.old.contracts.instruments.rows.items) }
    {
        add_with_spot(&mut self.contracts, &mut self.spots, instrument, spot)
    }

    // Adds a contract and its prices at the end, or refuses them and leaves all as it was.
    pub fn add_contract(&mut self, terms: Terms, prices: Prices) -> Result<(), Refusal>
        ensures answer { result ≡ answer_by (prices_refusal (table_in self.old) (said_in terms) prices) }
        ensures draft { draft_of self.new ≡ (if is_ok result then (plus_contract (table_in self.old) (said_in terms), plus_prices (said_of self.old) prices) else draft_of self.old) }
        ensures profiles { self.new.contracts.instruments.rows.items ≡ self.old.contracts.instruments.rows.items }
    {
        add_with_prices(&mut self.contracts, &mut self.prices, terms, prices)
    }
}

// The parts of a draft that grow together are changed in one call, since its rules do not hold between the two changes.
fn add_with_spot<P: Drop>(
    contracts: &mut ContractTable<P>,
    spots: &mut Rows<i32, 8>,
    instrument: Instrument<P>,
    spot: i32,
) -> Result<(), Refusal>
    requires { length spots.old.rows.items ≡ length (table_of contracts.old).instruments }
    ensures answer { result ≡ answer_by (spot_refusal (table_of contracts.old) instrument.number spot) }
    ensures table { table_of contracts.new ≡ (if is_ok result then plus_instrument (table_of contracts.old) (instr instrument) else table_of contracts.old) }
    ensures profiles { contracts.new.instruments.rows.items ≡ (if is_ok result then contracts.old.instruments.rows.items ++ instrument ∷ [] else contracts.old.instruments.rows.items) }
    ensures spots { spots.new.rows.items ≡ (if is_ok result then spots.old.rows.items ++ spot ∷ [] else spots.old.rows.items) }
{
    if !is_price(spot) {
        return Err(Refusal::OutOfRange);
    }
    contracts.add_instrument(instrument)?;
    spots.push(spot)
}

fn add_with_prices<P: Drop>(
    contracts: &mut ContractTable<P>,
    rows: &mut Rows<Prices, 128>,
    terms: Terms,
    prices: Prices,
) -> Result<(), Refusal>
    requires { length rows.old.rows.items ≡ size (table_of contracts.old) }
    ensures answer { result ≡ answer_by (prices_refusal (table_of contracts.old) (said_in terms) prices) }
    ensures table { table_of contracts.new ≡ (if is_ok result then plus_contract (table_of contracts.old) (said_in terms) else table_of contracts.old) }
    ensures profiles { contracts.new.instruments.rows.items ≡ contracts.old.instruments.rows.items }
    ensures rows { rows.new.rows.items ≡ (if is_ok result then rows.old.rows.items ++ prices ∷ [] else rows.old.rows.items) }
{
    if !prices.hold() {
        return Err(Refusal::OutOfRange);
    }
    contracts.add_contract(terms)?;
    rows.push(prices)
}
