use books::{Account, Book, Call, Cell, Entry, Trade, drive};
use calendar::{Load, Maturity};
use contracts::{ContractTable, Instrument, Kind, Terms};
use days::Day;
use ledger::{Ground, TableBook};
use opening::{Opened, Opening};
use std::alloc::{AllocError, Global};
use std::process::Abort;
use terms::{Amount, Failure, Refusal};

// A call, and what it is to be answered.
pub type Asked = (Call, Result<u16, Refusal>);

// 16 April 2026. Contracts 7 and 8 are forwards on May and on April, 9 and 10 futures on the third quarter and on May,
// 11 options on June. April was registered for the last time in March, and May's futures are on this day.
pub fn contracts(heap: Global) -> Result<ContractTable<Load>, Failure> {
    let date = Day::from_number(20_260_416)?;
    let mut table = ContractTable::new(heap, date, Day::from_number(20_260_419)?)?;
    let profile = Load::Base;
    for (number, kind) in [(1, Kind::Forward), (2, Kind::Future), (3, Kind::Option)] {
        table.add_instrument(Instrument {
            number,
            kind,
            profile,
        })?;
    }
    let listed = [
        (7, 1, Maturity::Month, 20_260_501, 20_260_428),
        (8, 1, Maturity::Month, 20_260_401, 20_260_330),
        (9, 2, Maturity::Quarter, 20_260_701, 20_260_629),
        (10, 2, Maturity::Month, 20_260_501, 20_260_416),
        (11, 3, Maturity::Month, 20_260_601, 20_260_528),
    ];
    for (number, instrument, maturity, first, registration) in listed {
        table.add_contract(Terms {
            number,
            instrument,
            maturity,
            first: Day::from_number(first)?,
            registration: Day::from_number(registration)?,
        })?;
    }
    Ok(table)
}

// Accounts 11 and 12 are agent 1's, 13 and 14 agent 2's.
pub fn accounts(heap: Global) -> Result<Opening, Failure> {
    let table = contracts(heap)?;
    let mut opening = Opening::on(heap, &table)?;
    for (number, agent) in [(11, 1), (12, 1), (13, 2), (14, 2)] {
        opening.add_account(Account { number, agent })?;
    }
    Ok(opening)
}

pub fn ground_of(heap: Global, held: &[Opened]) -> Result<Ground, Failure> {
    let mut opening = accounts(heap)?;
    for row in held {
        opening.add_opening(*row)?;
    }
    let ground = Ground::of(heap, &opening)?;
    Ok(ground)
}

// An account, a contract, and quantity and value at the opening. The program `desk` has one as well, as `enter`: a program
// and tests share no crate for examples.
pub fn opened(account: u16, contract: u16, quantity: i64, value: i64) -> Opened {
    Opened {
        account,
        contract,
        amount: Amount { quantity, value },
    }
}

pub fn enter(account: u16, contract: u16, quantity: i32, price: i32) -> Call {
    Call::Enter(Trade {
        account,
        contract,
        quantity,
        price,
    })
}

// What a table book with no limits answers. Its journal is an array: it is lent with room for all entries, so that no
// call takes memory.
pub fn answers_to(
    heap: Global,
    held: &[Opened],
    calls: &[Call],
) -> Result<Vec<Result<u16, Refusal>>, Failure> {
    let ground = ground_of(heap, held)?;
    let mut journal = [Entry::BLANK; 4096];
    let mut book = TableBook::open(ground, &mut journal);
    let answers = drive(heap, &mut book, calls)?;
    Ok(answers)
}

// Checks what it answers.
pub fn check_book(
    rt: &impl Abort,
    heap: Global,
    held: &[Opened],
    asked: &[Asked],
) -> Result<(), Failure> {
    let calls = calls_of(heap, asked)?;
    let answers = answers_to(heap, held, &calls)?;
    check_answers(rt, &answers, asked);
    Ok(())
}

pub fn calls_of(heap: Global, asked: &[Asked]) -> Result<Vec<Call>, AllocError> {
    asked.iter().map(|(call, _)| *call).collect(heap)
}

pub fn check_answers(rt: &impl Abort, answers: &[Result<u16, Refusal>], asked: &[Asked]) {
    assert_eq!(rt; answers.len(), asked.len());
    for (answer, (_, expected)) in answers.iter().zip(asked) {
        assert_eq!(rt; *answer, *expected);
    }
}

// Quantity and value of a cell, at the opening and traded.
pub fn cell(opening_quantity: i64, opening_value: i64, quantity: i64, value: i64) -> Cell {
    Cell {
        opening: Amount {
            quantity: opening_quantity,
            value: opening_value,
        },
        traded: Amount { quantity, value },
    }
}

// All that a book tells: its entries, and the cells of the accounts and contracts.
#[derive(PartialEq, Drop)]
pub struct Told {
    pub count: u16,
    pub entries: Vec<Option<Entry>>,
    pub cells: Vec<Result<Cell, Refusal>>,
}

pub fn told_by<B: Book>(heap: Global, book: &B) -> Result<Told, AllocError> {
    let entries = (0..4).map(|number| book.entry(number)).collect(heap)?;
    let mut cells = Vec::new(heap);
    for account in [11, 12, 13, 14] {
        for contract in [7, 8, 9, 10, 11] {
            cells.push(book.cell(account, contract))?;
        }
    }
    Ok(Told {
        count: book.entries(),
        entries,
        cells,
    })
}
