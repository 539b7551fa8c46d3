ghost use Rattle.std.specs.Prelude.{◌≡◌, IfOk, MatchResult};
ghost use Rattle.books.specs.Answers.{answers, run, booked_all, OpenedAlike};
ghost use Rattle.books.specs.State.{Follows};
ghost use Rattle.limits.specs.Layers.{under_limit, under_limits, uncovered};

use crate::layer::{AgentLimit, ConcentrationLimit};
use crate::scope::{OfAgents, OfMember, Summing};
use crate::table::{LimitTable, Limits};
use books::{Book, Call, drive};
use std::alloc::{AllocError, Global};
use terms::Refusal;

// Drives a book under an agent limit under a member limit. The layers last as long as the calls.
pub fn drive_under_limits<B: Book>(
    heap: Global,
    book: &mut B,
    limits: Limits,
    calls: &[Call],
) -> Result<Vec<Result<u16, Refusal>>, AllocError>
    ensures answers { IfOk result (λ v. v.items ≡ answers (under_limits limits (B.Book.state book.old)) calls.now) }
    ensures state { MatchResult result (λ v. B.Book.state book.new ≡ uncovered (uncovered (run (under_limits limits (B.Book.state book.old)) calls.now v.items))) (λ _. B.Book.state book.new ≡ B.Book.state book.old) }
    ensures journal { IfOk result (λ v. (B.Book.state book.new).journal ≡ booked_all (B.Book.state book.old).journal calls.now v.items) }
    ensures kept { OpenedAlike (B.Book.state book.old) (B.Book.state book.new) }
    ensures follows { Follows (B.Holdings.holding book.new) (B.Book.state book.new) }
    ensures lent { B.Book.lent book.new ≡ B.Book.lent book.old }
{
    let Limits { members, agents } = limits;
    let mut layer = AgentLimit {
        below: book,
        table: agents,
        summing: OfAgents,
    };
    let answers = drive_under_limit(heap, &mut layer, members, OfMember, calls);
    let AgentLimit {
        below,
        table,
        summing: _,
    } = layer;
    drop(table);
    give_back(below);
    answers
}

// Drives a book under one layer of limits.
pub fn drive_under_limit<B: Book, S: Summing>(
    heap: Global,
    book: &mut B,
    table: LimitTable,
    summing: S,
    calls: &[Call],
) -> Result<Vec<Result<u16, Refusal>>, AllocError>
    ensures answers { IfOk result (λ v. v.items ≡ answers (under_limit S.Summing.scope table (B.Book.state book.old)) calls.now) }
    ensures state { MatchResult result (λ v. B.Book.state book.new ≡ uncovered (run (under_limit S.Summing.scope table (B.Book.state book.old)) calls.now v.items)) (λ _. B.Book.state book.new ≡ B.Book.state book.old) }
    ensures journal { IfOk result (λ v. (B.Book.state book.new).journal ≡ booked_all (B.Book.state book.old).journal calls.now v.items) }
    ensures kept { OpenedAlike (B.Book.state book.old) (B.Book.state book.new) }
    ensures follows { Follows (B.Holdings.holding book.new) (B.Book.state book.new) }
    ensures lent { B.Book.lent book.new ≡ B.Book.lent book.old }
{
    let mut layer = ConcentrationLimit {
        below: book,
        table,
        summing,
    };
    let answers = drive(heap, &mut layer, calls);
    let ConcentrationLimit {
        below,
        table,
        summing: _,
    } = layer;
    drop(table);
    give_back(below);
    answers
}

// Ends a loan, so that whoever lent the book knows what became of it.
fn give_back<B: Book>(book: &mut B)
    ensures { book.new ≡ book.old }
{}
