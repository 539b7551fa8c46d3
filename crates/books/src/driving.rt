ghost use Rattle.std.specs.Prelude.{◌≡◌, IfOk, MatchResult};
ghost use Rattle.books.specs.State.{Follows};
ghost use Rattle.books.specs.Answers.{answer, answers, after, run, booked_all, OpenedAlike};

use crate::book::Book;
use crate::entry::Call;
use std::alloc::{AllocError, Global};
use terms::Refusal;

// One call.
pub fn ask<B: Book>(book: &mut B, call: Call) -> Result<u16, Refusal>
    ensures answer { result ≡ answer (B.Book.state book.old) call }
    ensures state { B.Book.state book.new ≡ after (B.Book.state book.old) call result }
    ensures follows { Follows (B.Holdings.holding book.new) (B.Book.state book.new) }
    ensures lent { B.Book.lent book.new ≡ B.Book.lent book.old }
{
    book.take(call)
}

// Takes each call in turn and keeps the answers. Room for them is made first: without it no call is made.
pub fn drive<B: Book>(
    heap: Global,
    book: &mut B,
    calls: &[Call],
) -> Result<Vec<Result<u16, Refusal>>, AllocError>
    ensures answers { IfOk result (λ v. v.items ≡ answers (B.Book.state book.old) calls.now) }
    ensures state { MatchResult result (λ v. B.Book.state book.new ≡ run (B.Book.state book.old) calls.now v.items) (λ _. B.Book.state book.new ≡ B.Book.state book.old) }
    ensures journal { IfOk result (λ v. (B.Book.state book.new).journal ≡ booked_all (B.Book.state book.old).journal calls.now v.items) }
    ensures kept { OpenedAlike (B.Book.state book.old) (B.Book.state book.new) }
    ensures follows { Follows (B.Holdings.holding book.new) (B.Book.state book.new) }
    ensures lent { B.Book.lent book.new ≡ B.Book.lent book.old }
{
    let _ = book.entries();
    let mut answers = Vec::with_capacity(heap, calls.len())?;
    for call in calls {
        answers.push_reserved(book.take(*call));
    }
    Ok(answers)
}
