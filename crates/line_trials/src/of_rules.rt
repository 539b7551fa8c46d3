use calendar::{Load, Maturity};
use contracts::{ContractTable, Instrument, Kind, Terms};
use days::Day;
use std::alloc::Global;
use std::process::Abort;
use std::test::Fail;
use terms::{Failure, Refusal};

// A table of 14 April 2026 with single days up to the 16th: futures have number 1, options number 2.
fn april(heap: Global) -> Result<ContractTable<Load>, Failure> {
    let date = Day::from_number(20260414)?;
    let mut table = ContractTable::new(heap, date, Day::from_number(20260416)?)?;
    table.add_instrument(Instrument {
        number: 1,
        kind: Kind::Future,
        profile: Load::Base,
    })?;
    table.add_instrument(Instrument {
        number: 2,
        kind: Kind::Option,
        profile: Load::Base,
    })?;
    Ok(table)
}

// Adds a contract to that table.
fn added(
    heap: Global,
    instrument: u8,
    maturity: Maturity,
    first: i64,
    registration: i64,
) -> Result<(), Failure> {
    let mut table = april(heap)?;
    let first = Day::from_number(first)?;
    let registration = Day::from_number(registration)?;
    table.add_contract(Terms {
        number: 1,
        instrument,
        maturity,
        first,
        registration,
    })?;
    Ok(())
}

// Each contract alone is answered so, given by its instrument, its maturity, its first and its last registration day.
fn check_added(
    rt: &impl Abort,
    heap: Global,
    contracts: &[(u8, Maturity, i64, i64)],
    answer: Result<(), Failure>,
) {
    for (instrument, maturity, first, registration) in contracts {
        let added = added(heap, *instrument, *maturity, *first, *registration);
        assert_eq!(rt; added, answer);
    }
}

#[test]
fn contracts_that_are_taken(rt: HostRuntime) {
    let some = [
        (1, Maturity::SingleDay, 20260415, 20260414),
        (1, Maturity::SingleDay, 20260416, 20260415),
        (1, Maturity::Weekend, 20260418, 20260415),
        (1, Maturity::Workdays, 20260420, 20260417),
        (1, Maturity::Week, 20260427, 20260424),
        (1, Maturity::RestOfMonth, 20260417, 20260414),
        (1, Maturity::RestOfMonth, 20260418, 20260415),
        (1, Maturity::RestOfMonth, 20260410, 20260409),
        (1, Maturity::Month, 20260401, 20260330),
        (1, Maturity::Month, 20260501, 20260414),
        (1, Maturity::Month, 20260601, 20260415),
        (1, Maturity::Quarter, 20260701, 20260629),
        (2, Maturity::Month, 20260501, 20260428),
    ];
    check_added(&rt, rt.alloc(), &some, Ok(()));
}

#[test]
fn dates_that_are_refused(rt: HostRuntime) {
    let some = [
        (1, Maturity::SingleDay, 20260414, 20260413),
        (1, Maturity::SingleDay, 20260417, 20260415),
        (1, Maturity::SingleDay, 20260415, 20260415),
        (1, Maturity::Weekend, 20260418, 20260414),
        (1, Maturity::Week, 20260413, 20260410),
        (1, Maturity::RestOfMonth, 20260418, 20260414),
        (1, Maturity::Month, 20260301, 20260227),
        (1, Maturity::Month, 20260601, 20260414),
        (1, Maturity::Month, 20260502, 20260429),
        (1, Maturity::Quarter, 20260401, 20260330),
        (1, Maturity::Quarter, 20260701, 20260414),
        (2, Maturity::Month, 20260501, 20260414),
    ];
    let refused = Err(Failure::Refused(Refusal::DateRule));
    check_added(&rt, rt.alloc(), &some, refused);
}

// The lowest number goes first.
#[test]
fn order_of_refusals(rt: HostRuntime) -> Result<(), Fail> {
    let mut table = april(rt.alloc())?;
    let terms = Terms {
        number: 7,
        instrument: 1,
        maturity: Maturity::Month,
        first: Day::from_number(20260501)?,
        registration: Day::from_number(20260428)?,
    };
    assert_eq!(rt; table.add_contract(terms), Ok(()));
    let late = Day::from_number(20260502)?;
    let number = Terms { number: 8, ..terms };
    let none = Terms {
        number: 0,
        instrument: 3,
        ..terms
    };
    let unknown = Terms {
        instrument: 3,
        first: late,
        ..terms
    };
    let same_number = Terms {
        first: late,
        ..terms
    };
    let start = Terms {
        first: late,
        ..number
    };
    assert_eq!(rt; table.add_contract(none), Err(Refusal::OutOfRange));
    assert_eq!(rt; table.add_contract(unknown), Err(Refusal::UnknownReference));
    assert_eq!(rt; table.add_contract(same_number), Err(Refusal::RepeatedKey));
    assert_eq!(rt; table.add_contract(number), Err(Refusal::RepeatedKey));
    assert_eq!(rt; table.add_contract(start), Err(Refusal::DateRule));
    assert_eq!(rt; table.contracts.rows.len(), 1);
    Ok(())
}
