use crate::setup::{answers_to, cell, check_book, enter, ground_of, opened, told_by};
use books::{Book, Call, Entry, Holdings, Trade, ask};
use ledger::TableBook;
use std::alloc::{AllocError, Global};
use std::test::Fail;
use terms::Refusal;

// Journals are arrays here: they are lent with room for all entries, so that no call takes memory.

// 4,096 entries that stand, one contract bought and sold in turn.
fn buys_and_sales(heap: Global) -> Result<Vec<Call>, AllocError> {
    let mut calls = Vec::new(heap);
    for _ in 0..2048 {
        calls.push(enter(11, 7, 1, 100))?;
        calls.push(enter(11, 7, -1, 100))?;
    }
    Ok(calls)
}

// A cancelled entry keeps its place, so the journal stays full. Numbers below 11 go first.
#[test]
fn journal_of_4096_and_one_more(rt: HostRuntime) -> Result<(), Fail> {
    let mut calls = buys_and_sales(rt.alloc())?;
    calls.extend_from_slice(&[
        enter(11, 7, 1, 100),
        enter(11, 8, 1, 100),
        Call::Cancel(4096),
        enter(11, 7, 1, 100),
    ])?;
    let answers = answers_to(rt.alloc(), &[], &calls)?;
    assert_eq!(rt; answers.len(), 4100);
    for (number, answer) in (1..=4096).zip(answers.iter()) {
        assert_eq!(rt; *answer, Ok(number));
    }
    let last = [
        Err(Refusal::JournalFull),
        Err(Refusal::RegistrationOver),
        Ok(4096),
        Err(Refusal::JournalFull),
    ];
    assert_eq!(rt; &answers[4096..], last.as_slice());
    Ok(())
}

// From 9,990 at the opening to 10,000, and from there to -10,000.
#[test]
fn quantity_at_its_bounds(rt: HostRuntime) -> Result<(), Fail> {
    let asked = [
        (enter(11, 7, 10, 100), Ok(1)),
        (enter(11, 7, 1, 100), Err(Refusal::CellOutOfRange)),
        (enter(11, 7, -10_000, 100), Ok(2)),
        (enter(11, 7, -10_000, 100), Ok(3)),
        (enter(11, 7, -1, 100), Err(Refusal::CellOutOfRange)),
        (enter(11, 7, 1, 100), Ok(4)),
    ];
    check_book(&rt, rt.alloc(), &[opened(11, 7, 9_990, 0)], &asked)?;
    Ok(())
}

// Twenty trades of 5,000,000,000 in value, or of as much below zero, which leave no quantity.
fn ten_pairs(heap: Global, account: u16, price: i32) -> Result<Vec<Call>, AllocError> {
    let mut calls = Vec::new(heap);
    for _ in 0..10 {
        calls.push(enter(account, 7, 10_000, price))?;
        calls.push(enter(account, 7, -10_000, price.saturating_neg()))?;
    }
    Ok(calls)
}

// The value is 100,000,000,000 after the twenty. A trade of 1 at -1 makes room for one at 1, and then cannot go.
#[test]
fn value_at_its_upper_bound(rt: HostRuntime) -> Result<(), Fail> {
    let mut calls = ten_pairs(rt.alloc(), 11, 500_000)?;
    calls.extend_from_slice(&[
        enter(11, 7, 1, 1),
        enter(11, 7, 1, 0),
        enter(11, 7, 1, -1),
        enter(11, 7, 2, 1),
        enter(11, 7, 1, 1),
        Call::Cancel(22),
    ])?;
    let answers = answers_to(rt.alloc(), &[], &calls)?;
    assert_eq!(rt; answers.len(), 26);
    let last = [
        Ok(20),
        Err(Refusal::CellOutOfRange),
        Ok(21),
        Ok(22),
        Err(Refusal::CellOutOfRange),
        Ok(23),
        Err(Refusal::CellOutOfRange),
    ];
    assert_eq!(rt; &answers[19..], last.as_slice());
    Ok(())
}

#[test]
fn value_at_its_lower_bound(rt: HostRuntime) -> Result<(), Fail> {
    let mut calls = ten_pairs(rt.alloc(), 12, -500_000)?;
    calls.extend_from_slice(&[enter(12, 7, 1, -1), enter(12, 7, -1, 1), enter(12, 7, 1, 1)])?;
    let answers = answers_to(rt.alloc(), &[], &calls)?;
    assert_eq!(rt; answers.len(), 23);
    let last = [
        Ok(20),
        Err(Refusal::CellOutOfRange),
        Err(Refusal::CellOutOfRange),
        Ok(21),
    ];
    assert_eq!(rt; &answers[19..], last.as_slice());
    Ok(())
}

// A sale of 10 holds the cell at 10,000.
#[test]
fn cancellation_out_of_range(rt: HostRuntime) -> Result<(), Fail> {
    let asked = [
        (enter(11, 7, -10, 100), Ok(1)),
        (enter(11, 7, 10_000, 100), Ok(2)),
        (enter(11, 7, 10, 100), Ok(3)),
        (Call::Cancel(1), Err(Refusal::CellOutOfRange)),
        (Call::Cancel(3), Ok(3)),
        (Call::Cancel(1), Ok(1)),
    ];
    check_book(&rt, rt.alloc(), &[], &asked)?;
    Ok(())
}

// Account 12 would come to 11,000. Account 13 would come to 15,000 without its sale.
#[test]
fn transfer_out_of_range(rt: HostRuntime) -> Result<(), Fail> {
    let asked = [
        (enter(11, 7, 5_000, 100), Ok(1)),
        (enter(12, 7, 6_000, 100), Ok(2)),
        (Call::Transfer(1, 12), Err(Refusal::CellOutOfRange)),
        (enter(13, 7, -5_000, 100), Ok(3)),
        (enter(13, 7, 10_000, 100), Ok(4)),
        (enter(13, 7, 5_000, 100), Ok(5)),
        (Call::Transfer(3, 14), Err(Refusal::CellOutOfRange)),
    ];
    check_book(&rt, rt.alloc(), &[], &asked)?;
    Ok(())
}

#[test]
fn numbers_out_of_range(rt: HostRuntime) -> Result<(), Fail> {
    let calls = [
        enter(0, 7, 1, 100),
        enter(11, 0, 1, 100),
        enter(11, 7, 0, 100),
        enter(11, 7, 10_001, 100),
        enter(11, 7, -10_001, 100),
        enter(11, 7, 1, 500_001),
        enter(99, 8, 1, -500_001),
        Call::Cancel(0),
        Call::Cancel(4_097),
        Call::Transfer(0, 11),
        Call::Transfer(4_097, 99),
        Call::Transfer(1, 0),
    ];
    let answers = answers_to(rt.alloc(), &[], &calls)?;
    assert_eq!(rt; answers.len(), 12);
    for answer in answers.iter() {
        assert_eq!(rt; *answer, Err(Refusal::OutOfRange));
    }
    Ok(())
}

// The lowest number goes first. The last registration day itself is not over.
#[test]
fn refused_by_what_is_in_the_book(rt: HostRuntime) -> Result<(), Fail> {
    let asked = [
        (enter(99, 7, 1, 100), Err(Refusal::NotInBook)),
        (enter(11, 99, 1, 100), Err(Refusal::NotInBook)),
        (enter(99, 8, 1, 100), Err(Refusal::NotInBook)),
        (enter(11, 8, 1, 100), Err(Refusal::RegistrationOver)),
        (enter(11, 10, 1, -500_000), Ok(1)),
        (Call::Cancel(2), Err(Refusal::NoStandingEntry)),
        (Call::Transfer(2, 12), Err(Refusal::NoStandingEntry)),
        (Call::Transfer(2, 99), Err(Refusal::NotInBook)),
        (Call::Transfer(1, 11), Err(Refusal::OwnAccount)),
        (Call::Cancel(1), Ok(1)),
        (Call::Cancel(1), Err(Refusal::NoStandingEntry)),
        (Call::Transfer(1, 11), Err(Refusal::NoStandingEntry)),
    ];
    check_book(&rt, rt.alloc(), &[], &asked)?;
    Ok(())
}

// A transfer moves an entry whole, and a cancellation takes it out of the cell that it was moved to.
#[test]
fn cells_follow_the_calls(rt: HostRuntime) -> Result<(), Fail> {
    let ground = ground_of(rt.alloc(), &[opened(11, 7, 3, 270), opened(12, 9, -4, 0)])?;
    let mut journal = [Entry::BLANK; 4096];
    let mut book = TableBook::open(ground, &mut journal);
    assert_eq!(rt; book.take(enter(11, 7, 5, 90)), Ok(1));
    assert_eq!(rt; book.take(enter(11, 7, -2, 80)), Ok(2));
    assert_eq!(rt; book.cell(11, 7), Ok(cell(3, 270, 3, 290)));
    assert_eq!(rt; book.take(Call::Transfer(1, 12)), Ok(1));
    assert_eq!(rt; book.cell(11, 7), Ok(cell(3, 270, -2, -160)));
    assert_eq!(rt; book.cell(12, 7), Ok(cell(0, 0, 5, 450)));
    assert_eq!(rt; book.take(Call::Cancel(1)), Ok(1));
    assert_eq!(rt; book.cell(12, 7), Ok(cell(0, 0, 0, 0)));
    assert_eq!(rt; book.cell(12, 9), Ok(cell(-4, 0, 0, 0)));
    assert_eq!(rt; book.cell(15, 7), Err(Refusal::NotInBook));
    assert_eq!(rt; book.cell(11, 12), Err(Refusal::NotInBook));
    assert_eq!(rt; book.entries(), 2);
    Ok(())
}

#[test]
fn refused_calls_change_nothing(rt: HostRuntime) -> Result<(), Fail> {
    let ground = ground_of(rt.alloc(), &[opened(11, 7, 9_990, 1_000)])?;
    let mut journal = [Entry::BLANK; 4096];
    let mut book = TableBook::open(ground, &mut journal);
    assert_eq!(rt; book.take(enter(11, 7, 10, 100)), Ok(1));
    assert_eq!(rt; book.take(enter(12, 7, 5, 100)), Ok(2));
    assert_eq!(rt; book.take(Call::Cancel(2)), Ok(2));
    let before = told_by(rt.alloc(), &book)?;
    let calls = [
        enter(11, 7, 0, 100),
        enter(99, 7, 1, 100),
        enter(11, 8, 1, 100),
        enter(11, 7, 1, 100),
        Call::Cancel(2),
        Call::Cancel(3),
        Call::Transfer(1, 11),
        Call::Transfer(2, 12),
        Call::LimitMember(7, 320_001),
    ];
    for call in calls {
        assert!(rt; book.take(call).is_err());
        let after = told_by(rt.alloc(), &book)?;
        assert!(rt; after == before);
    }
    Ok(())
}

// Each kind of call by its own name, and by what it is.
#[test]
fn calls_by_name(rt: HostRuntime) -> Result<(), Fail> {
    let ground = ground_of(rt.alloc(), &[])?;
    let mut journal = [Entry::BLANK; 4096];
    let mut book = TableBook::open(ground, &mut journal);
    let trade = Trade {
        account: 11,
        contract: 7,
        quantity: 5,
        price: 90,
    };
    assert_eq!(rt; book.enter(trade), Ok(1));
    assert_eq!(rt; book.transfer(1, 12), Ok(1));
    assert_eq!(rt; book.cell(12, 7), Ok(cell(0, 0, 5, 450)));
    assert_eq!(rt; book.cancel(1), Ok(1));
    assert_eq!(rt; book.cancel(1), Err(Refusal::NoStandingEntry));
    assert_eq!(rt; book.limit_member(7, 320_000), Ok(0));
    assert_eq!(rt; book.limit_agents(7, 320_001), Err(Refusal::OutOfRange));
    assert_eq!(rt; ask(&mut book, Call::Enter(trade)), Ok(2));
    Ok(())
}
