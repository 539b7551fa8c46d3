use calendar::{Load, Maturity};
use contracts::{ContractTable, Instrument, Kind, Terms};
use days::Day;
use std::alloc::Global;
use terms::{Failure, Refusal};

// A contract of the example, by the numbers of its days, and what the account holds of it.
#[derive(Clone, Copy, PartialEq, Eq, Debug)]
pub(crate) struct Holding {
    maturity: Maturity,
    first: i64,
    registration: i64,
    pub quantity: i32,
}

// April 2026 has gone into delivery: one week lies in it, another runs across its end. A year with its quarters is open.
pub(crate) fn holdings() -> [Holding; 8] {
    [
        held(Maturity::Month, 20_260_401, 20_260_330, 10),
        held(Maturity::Week, 20_260_420, 20_260_417, 2),
        held(Maturity::Week, 20_260_427, 20_260_424, 5),
        held(Maturity::Year, 20_270_101, 20_261_228, -5),
        held(Maturity::Quarter, 20_270_101, 20_261_228, 1),
        held(Maturity::Quarter, 20_270_401, 20_270_329, 2),
        held(Maturity::Quarter, 20_270_701, 20_270_628, 1),
        held(Maturity::Quarter, 20_271_001, 20_270_928, 3),
    ]
}

fn held(maturity: Maturity, first: i64, registration: i64, quantity: i32) -> Holding {
    Holding {
        maturity,
        first,
        registration,
        quantity,
    }
}

// The table of 16 April 2026, of base load, with single days up to the 19th.
pub(crate) fn example_table(
    heap: Global,
    holdings: &[Holding],
) -> Result<ContractTable<Load>, Failure> {
    let date = Day::from_number(20_260_416)?;
    let horizon = Day::from_number(20_260_419)?;
    let mut table = ContractTable::new(heap, date, horizon)?;
    table.add_instrument(Instrument {
        number: 1,
        kind: Kind::Future,
        profile: Load::Base,
    })?;
    for (number, holding) in (1..=u16::MAX).zip(holdings) {
        table.add_contract(terms_of(number, *holding)?)?;
    }
    Ok(table)
}

fn terms_of(number: u16, holding: Holding) -> Result<Terms, Refusal> {
    Ok(Terms {
        number,
        instrument: 1,
        maturity: holding.maturity,
        first: Day::from_number(holding.first)?,
        registration: Day::from_number(holding.registration)?,
    })
}
