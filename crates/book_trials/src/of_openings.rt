use crate::setup::{accounts, opened};
use books::Account;
use opening::Limit;
use std::test::Fail;
use terms::Refusal;

#[test]
fn accounts_that_are_refused(rt: HostRuntime) -> Result<(), Fail> {
    let mut opening = accounts(rt.alloc())?;
    let some = [
        (0, 1, Refusal::OutOfRange),
        (15, 0, Refusal::OutOfRange),
        (15, 100, Refusal::OutOfRange),
        (11, 100, Refusal::OutOfRange),
        (11, 2, Refusal::RepeatedKey),
    ];
    for (number, agent, refusal) in some {
        let account = Account { number, agent };
        assert_eq!(rt; opening.add_account(account), Err(refusal));
    }
    assert_eq!(rt; opening.accounts.rows.len(), 4);
    Ok(())
}

// Four are there, so 28 more are taken.
#[test]
fn room_for_32_accounts(rt: HostRuntime) -> Result<(), Fail> {
    let mut opening = accounts(rt.alloc())?;
    for number in 101..129 {
        assert_eq!(rt; opening.add_account(Account { number, agent: 99 }), Ok(()));
    }
    let late = Account {
        number: 65_535,
        agent: 1,
    };
    let again = Account {
        number: 128,
        agent: 1,
    };
    assert_eq!(rt; opening.add_account(late), Err(Refusal::TooLong));
    assert_eq!(rt; opening.add_account(again), Err(Refusal::RepeatedKey));
    Ok(())
}

// A value is kept for forwards; one of futures or options is 0, also where the account is not listed.
#[test]
fn opening_positions(rt: HostRuntime) -> Result<(), Fail> {
    let mut opening = accounts(rt.alloc())?;
    let some = [
        (opened(11, 7, 10_000, 10_000_000_000), Ok(())),
        (opened(12, 7, -10_000, -10_000_000_000), Ok(())),
        (opened(13, 9, 1, 0), Ok(())),
        (opened(13, 11, -1, 0), Ok(())),
        (opened(13, 7, 10_001, 0), Err(Refusal::OutOfRange)),
        (opened(13, 7, -10_001, 0), Err(Refusal::OutOfRange)),
        (opened(13, 7, 1, 10_000_000_001), Err(Refusal::OutOfRange)),
        (opened(13, 7, 1, -10_000_000_001), Err(Refusal::OutOfRange)),
        (opened(14, 9, 1, 1), Err(Refusal::OutOfRange)),
        (opened(14, 11, 1, -1), Err(Refusal::OutOfRange)),
        (opened(99, 10, 1, 1), Err(Refusal::OutOfRange)),
        (opened(0, 7, 1, 0), Err(Refusal::OutOfRange)),
        (opened(13, 0, 1, 0), Err(Refusal::OutOfRange)),
        (opened(99, 7, 1, 1), Err(Refusal::UnknownReference)),
        (opened(13, 99, 1, 1), Err(Refusal::UnknownReference)),
        (opened(11, 7, 1, 0), Err(Refusal::RepeatedKey)),
    ];
    for (row, answer) in some {
        assert_eq!(rt; opening.add_opening(row), answer);
    }
    assert_eq!(rt; opening.rows.rows.len(), 4);
    Ok(())
}

#[test]
fn limits_at_the_opening(rt: HostRuntime) -> Result<(), Fail> {
    let mut opening = accounts(rt.alloc())?;
    let some = [
        (7, 320_000, 0, Ok(())),
        (9, 320_001, 0, Err(Refusal::OutOfRange)),
        (9, 0, 320_001, Err(Refusal::OutOfRange)),
        (0, 0, 0, Err(Refusal::OutOfRange)),
        (99, 0, 0, Err(Refusal::UnknownReference)),
        (7, 0, 0, Err(Refusal::RepeatedKey)),
        (9, 0, 320_000, Ok(())),
    ];
    for (contract, member, agents, answer) in some {
        let limit = Limit {
            contract,
            member,
            agents,
        };
        assert_eq!(rt; opening.add_limit(limit), answer);
    }
    assert_eq!(rt; opening.limits.rows.len(), 2);
    Ok(())
}
