use books::{Account, Call, Trade};
use calendar::{Load, Maturity};
use contracts::{ContractTable, Instrument, Kind, Terms};
use days::Day;
use opening::{Limit, Opened, Opening};
use std::alloc::Global;
use terms::{Amount, Failure, Refusal};

// The book of 16 April 2026: forwards on May and on April, which is registered no more, and futures on the third quarter.
// Accounts 11 and 12 are one agent's, 13 is another's.
pub(crate) fn example_opening(heap: Global) -> Result<Opening, Failure> {
    let table = example_table(heap)?;
    let mut opening = Opening::on(heap, &table)?;
    for (number, agent) in [(11, 1), (12, 1), (13, 2)] {
        opening.add_account(Account { number, agent })?;
    }
    opening.add_opening(held(11, 7, 20, 90_000))?;
    opening.add_opening(held(13, 9, -9_990, 0))?;
    opening.add_limit(Limit {
        contract: 7,
        member: 100,
        agents: 60,
    })?;
    Ok(opening)
}

fn example_table(heap: Global) -> Result<ContractTable<Load>, Failure> {
    let date = Day::from_number(20_260_416)?;
    let mut table = ContractTable::new(heap, date, Day::from_number(20_260_419)?)?;
    for (number, kind) in [(1, Kind::Forward), (2, Kind::Future)] {
        let profile = Load::Base;
        table.add_instrument(Instrument {
            number,
            kind,
            profile,
        })?;
    }
    table.add_contract(listed(7, 1, Maturity::Month, 20_260_501, 20_260_428)?)?;
    table.add_contract(listed(8, 1, Maturity::Month, 20_260_401, 20_260_330)?)?;
    table.add_contract(listed(9, 2, Maturity::Quarter, 20_260_701, 20_260_629)?)?;
    Ok(table)
}

fn listed(
    number: u16,
    instrument: u8,
    maturity: Maturity,
    first: i64,
    registration: i64,
) -> Result<Terms, Refusal> {
    Ok(Terms {
        number,
        instrument,
        maturity,
        first: Day::from_number(first)?,
        registration: Day::from_number(registration)?,
    })
}

// The trials have one as well: a program and tests share no crate for examples.
fn held(account: u16, contract: u16, quantity: i64, value: i64) -> Opened {
    Opened {
        account,
        contract,
        amount: Amount { quantity, value },
    }
}

// Each reason for which a call is refused, but a full journal, and what is taken between.
pub(crate) fn example_calls() -> [Call; 21] {
    [
        enter(11, 7, 30, 4_400),
        enter(12, 7, 10, 4_450),
        // The agent of accounts 11 and 12 has as much as it may.
        enter(12, 7, 5, 4_460),
        enter(13, 7, 40, 4_500),
        // So has the member.
        enter(13, 7, 15, 4_500),
        enter(11, 7, 0, 4_400),
        enter(14, 7, 1, 4_400),
        enter(11, 8, 1, 4_400),
        Call::Cancel(4),
        Call::Transfer(1, 11),
        enter(13, 9, -11, 5_000),
        // Within one agent.
        Call::Transfer(1, 12),
        Call::Cancel(2),
        Call::Cancel(2),
        // To the other agent.
        Call::Transfer(3, 11),
        Call::LimitAgents(7, 90),
        Call::Transfer(3, 11),
        Call::LimitMember(9, 9_990),
        enter(13, 9, -1, 5_000),
        enter(13, 9, 4, 5_000),
        Call::LimitMember(8, 320_001),
    ]
}

// The trials have one as well.
fn enter(account: u16, contract: u16, quantity: i32, price: i32) -> Call {
    Call::Enter(Trade {
        account,
        contract,
        quantity,
        price,
    })
}
