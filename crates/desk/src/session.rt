ghost use Rattle.std.specs.Prelude.{◌≡◌, [], length, take, IfOk};
ghost use Rattle.books.specs.Answers.{answers, booked_all};
ghost use Rattle.ledger.specs.Meaning.{state_of};
ghost use Rattle.desk.specs.Rows.{rows_of};
ghost use Rattle.limits.specs.Layers.{under_limits};
ghost use Rattle.desk.specs.Sessions.{opened, ended};

use crate::cells::rows_of;
use crate::row::Row;
use books::{Book, Call, Entry};
use ledger::{Ground, TableBook};
use limits::{Limits, drive_under_limits};
use std::alloc::{AllocError, Global};
use terms::Refusal;

// What a list of calls comes to: an answer to each, and the cells that are not all zero, each by itself.
#[derive(Drop)]
pub struct Outcome {
    pub answers: Vec<Result<u16, Refusal>>,
    pub rows: Vec<Row>,
}

// Opens a table book on a journal that is lent, and drives it under an agent limit under a member limit. The entries
// are then the first of the journal.
pub fn run(
    heap: Global,
    ground: Ground,
    journal: &mut [Entry; 4096],
    limits: Limits,
    calls: &[Call],
) -> Result<Outcome, AllocError>
    ensures answers { IfOk result (λ x. x.answers.items ≡ answers (opened ground limits) calls.now) }
    ensures rows { IfOk result (λ x. x.rows.items ≡ rows_of (ended (opened ground limits) calls.now)) }
    ensures journal { IfOk result (λ x. take (length (booked_all [] calls.now x.answers.items)) journal.new ≡ booked_all [] calls.now x.answers.items) }
{
    let mut book = TableBook::open(ground, journal);
    let answers = drive_under_limits(heap, &mut book, limits, calls);
    let rows = rows_of(heap, &book);
    // The book ends here, so that whoever lent the journal knows what it holds.
    let TableBook {
        journal,
        used: _,
        tables,
    } = book;
    drop(tables);
    let _room = journal.len();
    Ok(Outcome {
        answers: answers?,
        rows: rows?,
    })
}
