use calendar::{Load, Maturity};
use contracts::{ContractTable, Instrument, Kind, Terms};
use days::Day;
use positions::positions_of;
use std::alloc::Global;
use std::process::Abort;
use std::test::Fail;
use terms::Failure;

// The type and the profile of a table's one instrument, its date and its horizon.
#[derive(Clone, Copy, PartialEq, Eq, Debug)]
struct Market(Kind, Load, i64, i64);

// A contract by its first day and its last registration day, and what is held of it.
#[derive(Clone, Copy, PartialEq, Eq, Debug)]
struct Held(Maturity, i64, i64, i32);

// A line's hours, and its position before netting and after it.
#[derive(Clone, Copy, PartialEq, Debug)]
struct Shown(u32, i64, i64);

// A table of one instrument.
fn table_of(heap: Global, market: Market, held: &[Held]) -> Result<ContractTable<Load>, Failure> {
    let date = Day::from_number(market.2)?;
    let horizon = Day::from_number(market.3)?;
    let mut table = ContractTable::new(heap, date, horizon)?;
    table.add_instrument(Instrument {
        number: 1,
        kind: market.0,
        profile: market.1,
    })?;
    for (number, h) in (1..=u16::MAX).zip(held) {
        table.add_contract(Terms {
            number,
            instrument: 1,
            maturity: h.0,
            first: Day::from_number(h.1)?,
            registration: Day::from_number(h.2)?,
        })?;
    }
    Ok(table)
}

// The lines of the table of what is held, in their order, each as expected.
fn check_lines(
    rt: &impl Abort,
    heap: Global,
    market: Market,
    held: &[Held],
    expected: &[Shown],
) -> Result<(), Fail> {
    let table = table_of(heap, market, held)?;
    let quantities: Vec<i32> = held.iter().map(|h| h.3).collect(heap)?;
    let lines = table.lines(heap)?;
    let positions = positions_of(heap, &table, &quantities)?;
    assert_eq!(rt; lines.len(), expected.len());
    assert_eq!(rt; positions.before.len(), expected.len());
    assert_eq!(rt; positions.netted.len(), expected.len());
    let positions = positions.before.iter().zip(&positions.netted);
    for ((line, (before, netted)), e) in lines.iter().zip(positions).zip(expected) {
        assert_eq!(rt; Shown(table.hours_of_line(*line), *before, *netted), *e);
    }
    Ok(())
}

// Positions of one side are not netted, although the year has the hours of its quarters.
#[test]
fn equal_signs(rt: HostRuntime) -> Result<(), Fail> {
    let held = [
        Held(Maturity::Year, 20270101, 20261228, 5),
        Held(Maturity::Quarter, 20270101, 20261228, 1),
        Held(Maturity::Quarter, 20270401, 20270329, 2),
        Held(Maturity::Quarter, 20270701, 20270628, 1),
        Held(Maturity::Quarter, 20271001, 20270928, 3),
    ];
    let market = Market(Kind::Future, Load::Base, 20260105, 20260106);
    let expected = [
        Shown(24, 0, 0),
        Shown(600, 0, 0),
        Shown(672, 0, 0),
        Shown(8760, 5, 5),
        Shown(2159, 1, 1),
        Shown(2184, 2, 2),
        Shown(2208, 1, 1),
        Shown(2209, 3, 3),
    ];
    check_lines(&rt, rt.alloc(), market, &held, &expected)
}

// A week from 27 April to 3 May takes nothing of either month.
#[test]
fn week_across_the_end_of_a_month(rt: HostRuntime) -> Result<(), Fail> {
    let held = [
        Held(Maturity::Month, 20260401, 20260330, 10),
        Held(Maturity::Month, 20260501, 20260423, 7),
        Held(Maturity::Week, 20260427, 20260424, 5),
    ];
    let market = Market(Kind::Future, Load::Base, 20260423, 20260424);
    let expected = [
        Shown(24, 10, 10),
        Shown(144, 10, 10),
        Shown(744, 7, 7),
        Shown(168, 5, 5),
    ];
    check_lines(&rt, rt.alloc(), market, &held, &expected)
}

// Peak hours: none on 11 and 12 April, nor on the open weekend of the 18th, which still takes its share of the month.
#[test]
fn peak_month_over_a_weekend(rt: HostRuntime) -> Result<(), Fail> {
    let held = [
        Held(Maturity::Month, 20260401, 20260330, 10),
        Held(Maturity::Weekend, 20260418, 20260417, 3),
    ];
    let market = Market(Kind::Swap, Load::Peak, 20260409, 20260412);
    let expected = [
        Shown(12, 10, 10),
        Shown(0, 10, 10),
        Shown(0, 10, 10),
        Shown(168, 10, 10),
        Shown(252, 0, 0),
        Shown(0, 13, 13),
    ];
    check_lines(&rt, rt.alloc(), market, &held, &expected)
}

// From 28 April the single days reach to 3 May, so nothing is left of April.
#[test]
fn horizon_in_the_next_month(rt: HostRuntime) -> Result<(), Fail> {
    let held = [
        Held(Maturity::Month, 20260401, 20260330, 10),
        Held(Maturity::Month, 20260501, 20260427, 4),
        Held(Maturity::Week, 20260504, 20260429, 1),
    ];
    let market = Market(Kind::Forward, Load::Base, 20260428, 20260503);
    let expected = [
        Shown(24, 10, 10),
        Shown(24, 10, 10),
        Shown(24, 4, 4),
        Shown(24, 4, 4),
        Shown(24, 4, 4),
        Shown(0, 0, 0),
        Shown(504, 4, 4),
        Shown(168, 5, 5),
    ];
    check_lines(&rt, rt.alloc(), market, &held, &expected)
}

// A rest of April from the day after the horizon goes to the month's rest alone.
#[test]
fn rest_from_the_day_after_the_horizon(rt: HostRuntime) -> Result<(), Fail> {
    let held = [Held(Maturity::RestOfMonth, 20260417, 20260414, 6)];
    let market = Market(Kind::Future, Load::Gas, 20260414, 20260416);
    let expected = [
        Shown(1, 0, 0),
        Shown(1, 0, 0),
        Shown(14, 6, 6),
        Shown(31, 0, 0),
    ];
    check_lines(&rt, rt.alloc(), market, &held, &expected)
}

// The last week of May takes all that the single days leave of it.
#[test]
fn rest_that_takes_nothing(rt: HostRuntime) -> Result<(), Fail> {
    let held = [
        Held(Maturity::Week, 20260525, 20260522, 1),
        Held(Maturity::Month, 20260501, 20260429, 8),
    ];
    let market = Market(Kind::Future, Load::Base, 20260520, 20260524);
    let expected = [
        Shown(24, 8, 8),
        Shown(24, 8, 8),
        Shown(24, 8, 8),
        Shown(24, 8, 8),
        Shown(0, 0, 0),
        Shown(720, 0, 0),
        Shown(168, 9, 9),
    ];
    check_lines(&rt, rt.alloc(), market, &held, &expected)
}

// July is running, so the third quarter is not netted.
#[test]
fn quarter_with_a_running_month(rt: HostRuntime) -> Result<(), Fail> {
    let held = [
        Held(Maturity::Quarter, 20260701, 20260629, -5),
        Held(Maturity::Month, 20260701, 20260615, 2),
        Held(Maturity::Month, 20260801, 20260729, 3),
        Held(Maturity::Month, 20260901, 20260828, 4),
    ];
    let market = Market(Kind::Future, Load::Base, 20260616, 20260617);
    let expected = [
        Shown(24, 0, 0),
        Shown(312, 0, 0),
        Shown(744, 2, 2),
        Shown(2208, -5, -5),
        Shown(744, 3, 3),
        Shown(720, 4, 4),
    ];
    check_lines(&rt, rt.alloc(), market, &held, &expected)
}

// The year first, by 2; then the six months from April, by 3; then the second quarter, by 1.
#[test]
fn year_then_six_months_then_quarter(rt: HostRuntime) -> Result<(), Fail> {
    let held = [
        Held(Maturity::Month, 20270601, 20270528, -4),
        Held(Maturity::Quarter, 20270101, 20261228, 3),
        Held(Maturity::Quarter, 20270401, 20270329, 6),
        Held(Maturity::Quarter, 20270701, 20270628, 7),
        Held(Maturity::Quarter, 20271001, 20270928, 2),
        Held(Maturity::Month, 20270401, 20270329, -2),
        Held(Maturity::Season, 20270401, 20270329, -3),
        Held(Maturity::Month, 20270501, 20270428, -1),
        Held(Maturity::Year, 20270101, 20261228, -5),
    ];
    let market = Market(Kind::Future, Load::Base, 20260105, 20260106);
    let expected = [
        Shown(24, 0, 0),
        Shown(600, 0, 0),
        Shown(672, 0, 0),
        Shown(720, -4, -3),
        Shown(2159, 3, 1),
        Shown(2184, 6, 0),
        Shown(2208, 7, 2),
        Shown(2209, 2, 0),
        Shown(720, -2, -1),
        Shown(4392, -3, 0),
        Shown(744, -1, 0),
        Shown(8760, -5, -3),
    ];
    check_lines(&rt, rt.alloc(), market, &held, &expected)
}

#[test]
fn options_are_left_alone(rt: HostRuntime) -> Result<(), Fail> {
    let held = [
        Held(Maturity::Quarter, 20270101, 20261228, -5),
        Held(Maturity::Month, 20270101, 20261228, 1),
        Held(Maturity::Month, 20270201, 20270128, 2),
        Held(Maturity::Month, 20270301, 20270225, 1),
    ];
    let options = Market(Kind::Option, Load::Base, 20260105, 20260106);
    let expected = [
        Shown(24, 0, 0),
        Shown(600, 0, 0),
        Shown(672, 0, 0),
        Shown(2159, -5, -5),
        Shown(744, 1, 1),
        Shown(672, 2, 2),
        Shown(743, 1, 1),
    ];
    check_lines(&rt, rt.alloc(), options, &held, &expected)?;
    let futures = Market(Kind::Future, Load::Base, 20260105, 20260106);
    let expected = [
        Shown(24, 0, 0),
        Shown(600, 0, 0),
        Shown(672, 0, 0),
        Shown(2159, -5, -4),
        Shown(744, 1, 0),
        Shown(672, 2, 1),
        Shown(743, 1, 0),
    ];
    check_lines(&rt, rt.alloc(), futures, &held, &expected)
}
