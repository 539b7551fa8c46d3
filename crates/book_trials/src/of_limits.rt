use crate::setup::{
    Asked, accounts, calls_of, check_answers, check_book, enter, ground_of, opened, told_by,
};
use books::{Book, Call, Entry};
use ledger::TableBook;
use limits::{
    LimitTable, Limits, MemberLimit, OfAgents, OfMember, Summing, drive_under_limit,
    drive_under_limits,
};
use opening::{Limit, Opened};
use std::alloc::{AllocError, Global};
use std::process::Abort;
use std::test::Fail;
use terms::{Failure, Refusal};

// Journals are arrays here: they are lent with room for all entries, so that no call takes memory.

// A limit on contract 7, the first of five, and on no other.
fn limit_of(heap: Global, most: u32) -> Result<LimitTable, AllocError> {
    let mut table = LimitTable::none(heap, 5)?;
    table.set(0, most);
    Ok(table)
}

// Checks what a table book under one limit answers.
fn check_under<S: Summing>(
    rt: &impl Abort,
    heap: Global,
    held: &[Opened],
    summing: S,
    most: u32,
    asked: &[Asked],
) -> Result<(), Failure> {
    let ground = ground_of(heap, held)?;
    let table = limit_of(heap, most)?;
    let calls = calls_of(heap, asked)?;
    let mut journal = [Entry::BLANK; 4096];
    let mut book = TableBook::open(ground, &mut journal);
    let answers = drive_under_limit(heap, &mut book, table, summing, &calls)?;
    check_answers(rt, &answers, asked);
    Ok(())
}

// 100 at the opening, over the limit of 60. Of equal size on the other side is not larger.
#[test]
fn sums_over_a_limit_shrink(rt: HostRuntime) -> Result<(), Fail> {
    let asked = [
        (enter(11, 7, -10, 100), Ok(1)),
        (enter(11, 7, 1, 100), Err(Refusal::OverLimit)),
        (enter(11, 7, -181, 100), Err(Refusal::OverLimit)),
        (enter(11, 7, -180, 100), Ok(2)),
        (enter(11, 7, 30, 100), Ok(3)),
        (enter(11, 7, -1, 100), Err(Refusal::OverLimit)),
        (enter(13, 7, 120, 100), Ok(4)),
        (enter(12, 7, 1, 100), Err(Refusal::OverLimit)),
    ];
    let held = [opened(11, 7, 50, 0), opened(13, 7, 50, 0)];
    check_under(&rt, rt.alloc(), &held, OfMember, 60, &asked)?;
    Ok(())
}

// Two opposite entries come to nothing, and neither can go once the limit is below each. Other contracts have no limit.
#[test]
fn limit_below_what_stands(rt: HostRuntime) -> Result<(), Fail> {
    let asked = [
        (enter(11, 7, 30, 100), Ok(1)),
        (enter(12, 7, -30, 100), Ok(2)),
        (Call::LimitMember(7, 20), Ok(0)),
        (Call::Cancel(2), Err(Refusal::OverLimit)),
        (Call::Cancel(1), Err(Refusal::OverLimit)),
        (enter(13, 7, 20, 100), Ok(3)),
        (enter(13, 7, 1, 100), Err(Refusal::OverLimit)),
        (Call::Cancel(1), Ok(1)),
        (enter(13, 9, 5_000, 100), Ok(4)),
    ];
    check_under(&rt, rt.alloc(), &[], OfMember, 60, &asked)?;
    Ok(())
}

// The sum of the agent that gives, then that of the agent that takes; within one agent a transfer is free.
#[test]
fn transfers_between_agents(rt: HostRuntime) -> Result<(), Fail> {
    let asked = [
        (enter(11, 7, -40, 100), Ok(1)),
        (enter(12, 7, 60, 100), Ok(2)),
        (enter(12, 7, 40, 100), Ok(3)),
        (Call::Transfer(1, 13), Err(Refusal::OverLimit)),
        (enter(13, 7, 50, 100), Ok(4)),
        (Call::Transfer(3, 13), Err(Refusal::OverLimit)),
        (Call::Transfer(1, 12), Ok(1)),
        (Call::LimitAgents(7, 10), Ok(0)),
        (Call::Transfer(1, 11), Ok(1)),
        (Call::Transfer(4, 14), Ok(4)),
        (Call::Transfer(4, 12), Err(Refusal::OverLimit)),
    ];
    check_under(&rt, rt.alloc(), &[], OfAgents, 60, &asked)?;
    Ok(())
}

// A transfer leaves the member's sum as it was.
#[test]
fn transfers_under_the_member_limit(rt: HostRuntime) -> Result<(), Fail> {
    let asked = [
        (enter(11, 7, 50, 100), Ok(1)),
        (Call::LimitMember(7, 0), Ok(0)),
        (Call::Transfer(1, 13), Ok(1)),
        (Call::Transfer(1, 12), Ok(1)),
        (enter(11, 7, 1, 100), Err(Refusal::OverLimit)),
    ];
    check_under(&rt, rt.alloc(), &[], OfMember, 50, &asked)?;
    Ok(())
}

// The book below refuses first.
#[test]
fn book_below_goes_first(rt: HostRuntime) -> Result<(), Fail> {
    let asked = [
        (enter(11, 7, 6, 500_001), Err(Refusal::OutOfRange)),
        (enter(99, 7, 6, 100), Err(Refusal::NotInBook)),
        (enter(11, 8, 6, 100), Err(Refusal::RegistrationOver)),
        (Call::Cancel(1), Err(Refusal::NoStandingEntry)),
        (enter(11, 7, 6, 100), Err(Refusal::OverLimit)),
        (enter(12, 7, 10_000, 100), Err(Refusal::CellOutOfRange)),
        (enter(11, 7, 5, 100), Ok(1)),
    ];
    let held = [opened(12, 7, 1, 0), opened(13, 7, -1, 0)];
    check_under(&rt, rt.alloc(), &held, OfMember, 5, &asked)?;
    Ok(())
}

// A limit of 10 over one of 20. A new limit of 50 replaces the 10, and the 20 still binds.
#[test]
fn two_member_limits(rt: HostRuntime) -> Result<(), Fail> {
    let asked = [
        (enter(11, 7, 11, 100), Err(Refusal::OverLimit)),
        (Call::LimitMember(7, 50), Ok(0)),
        (enter(11, 7, 15, 100), Ok(1)),
        (enter(11, 7, 6, 100), Err(Refusal::OverLimit)),
        (enter(11, 7, 5, 100), Ok(2)),
    ];
    let calls = calls_of(rt.alloc(), &asked)?;
    let ground = ground_of(rt.alloc(), &[])?;
    let below = limit_of(rt.alloc(), 20)?;
    let above = limit_of(rt.alloc(), 10)?;
    let mut journal = [Entry::BLANK; 4096];
    let mut book = TableBook::open(ground, &mut journal);
    let mut lower = MemberLimit {
        below: &mut book,
        table: below,
        summing: OfMember,
    };
    let answers = drive_under_limit(rt.alloc(), &mut lower, above, OfMember, &calls)?;
    check_answers(&rt, &answers, &asked);
    Ok(())
}

// The member limit passes the setting of an agent limit down, and each binds by itself.
#[test]
fn both_limits(rt: HostRuntime) -> Result<(), Fail> {
    let asked = [
        (enter(11, 7, 31, 100), Err(Refusal::OverLimit)),
        (enter(11, 7, 30, 100), Ok(1)),
        (enter(13, 7, 21, 100), Err(Refusal::OverLimit)),
        (Call::LimitMember(7, 90), Ok(0)),
        (enter(13, 7, 30, 100), Ok(2)),
        (enter(12, 7, 1, 100), Err(Refusal::OverLimit)),
        (Call::LimitAgents(7, 60), Ok(0)),
        (enter(12, 7, 30, 100), Ok(3)),
        (enter(14, 7, 1, 100), Err(Refusal::OverLimit)),
    ];
    let calls = calls_of(rt.alloc(), &asked)?;
    let ground = ground_of(rt.alloc(), &[])?;
    let limits = Limits {
        members: limit_of(rt.alloc(), 50)?,
        agents: limit_of(rt.alloc(), 30)?,
    };
    let mut journal = [Entry::BLANK; 4096];
    let mut book = TableBook::open(ground, &mut journal);
    let answers = drive_under_limits(rt.alloc(), &mut book, limits, &calls)?;
    check_answers(&rt, &answers, &asked);
    Ok(())
}

// A limit that no layer has is answered by 0 and binds nothing, also on a contract that is registered no more.
#[test]
fn limits_on_a_book_without(rt: HostRuntime) -> Result<(), Fail> {
    let asked = [
        (Call::LimitMember(7, 5), Ok(0)),
        (Call::LimitAgents(7, 5), Ok(0)),
        (enter(11, 7, 6, 100), Ok(1)),
        (Call::LimitMember(8, 320_000), Ok(0)),
        (Call::LimitMember(7, 320_001), Err(Refusal::OutOfRange)),
        (Call::LimitAgents(0, 5), Err(Refusal::OutOfRange)),
        (Call::LimitAgents(99, 5), Err(Refusal::NotInBook)),
        (Call::LimitMember(99, 320_001), Err(Refusal::OutOfRange)),
    ];
    check_book(&rt, rt.alloc(), &[], &asked)?;
    Ok(())
}

// A member limit that is set under an agent limit alone is answered by 0 and binds nothing.
#[test]
fn member_limit_under_agent_limits_alone(rt: HostRuntime) -> Result<(), Fail> {
    let asked = [
        (Call::LimitMember(7, 5), Ok(0)),
        (enter(11, 7, 60, 100), Ok(1)),
        (enter(13, 7, 60, 100), Ok(2)),
        (enter(13, 7, 1, 100), Err(Refusal::OverLimit)),
    ];
    check_under(&rt, rt.alloc(), &[], OfAgents, 60, &asked)?;
    Ok(())
}

// A limit that was not set, and a call that a limit refused, change nothing.
#[test]
fn refused_by_a_limit(rt: HostRuntime) -> Result<(), Fail> {
    let ground = ground_of(rt.alloc(), &[opened(13, 7, -5, -500)])?;
    let table = limit_of(rt.alloc(), 60)?;
    let mut journal = [Entry::BLANK; 4096];
    let mut book = TableBook::open(ground, &mut journal);
    let mut layer = MemberLimit {
        below: &mut book,
        table,
        summing: OfMember,
    };
    assert_eq!(rt; layer.take(enter(11, 7, 65, 100)), Ok(1));
    let before = told_by(rt.alloc(), &layer)?;
    for call in [enter(12, 7, 1, 100), Call::LimitMember(7, 320_001)] {
        assert!(rt; layer.take(call).is_err());
        let after = told_by(rt.alloc(), &layer)?;
        assert!(rt; after == before);
    }
    assert_eq!(rt; layer.take(enter(12, 7, 1, 100)), Err(Refusal::OverLimit));
    assert_eq!(rt; layer.take(Call::LimitMember(7, 61)), Ok(0));
    assert_eq!(rt; layer.take(enter(12, 7, 1, 100)), Ok(2));
    Ok(())
}

// By the places of the contracts, which are in the order of the table.
#[test]
fn limits_of_an_opening(rt: HostRuntime) -> Result<(), Fail> {
    let mut opening = accounts(rt.alloc())?;
    for (contract, member, agents) in [(9, 50, 20), (7, 60, 0)] {
        opening.add_limit(Limit {
            contract,
            member,
            agents,
        })?;
    }
    let Limits { members, agents } = Limits::of(rt.alloc(), &opening)?;
    assert_eq!(rt;
        members.limits.as_slice(),
        [Some(60), None, Some(50), None, None].as_slice()
    );
    assert_eq!(rt;
        agents.limits.as_slice(),
        [Some(0), None, Some(20), None, None].as_slice()
    );
    Ok(())
}
