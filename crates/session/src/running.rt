ghost use Rattle.std.specs.Prelude.{◌≡◌, IfOk};
ghost use Rattle.books.specs.Answers.{answers};
ghost use Rattle.session.specs.Sessions.{opened, Answered};

use books::{Call, Entry};
use ledger::{Ground, TableBook};
use limits::{Limits, drive_under_limits};
use opening::Opening;
use std::alloc::{AllocError, Global};
use terms::Refusal;

// Opens a table book on an opening under its limits, on a journal that is lent to it for the session, and makes the
// calls in order.
pub fn answers_to(
    heap: Global,
    opening: &Opening,
    calls: &[Call],
) -> Result<Vec<Result<u16, Refusal>>, AllocError>
    ensures { IfOk result (λ v. Answered opening.now calls.now v.items) }
{
    let limits = Limits::of(heap, opening)?;
    let ground = Ground::of(heap, opening)?;
    // An array: the journal is lent with room for all entries, so that no call takes memory.
    let mut journal = [Entry::BLANK; 4_096];
    drive_on(heap, ground, &mut journal, limits, calls)
}

// Drives a table book on a ground under the limits.
fn drive_on(
    heap: Global,
    ground: Ground,
    journal: &mut [Entry; 4_096],
    limits: Limits,
    calls: &[Call],
) -> Result<Vec<Result<u16, Refusal>>, AllocError>
    ensures { IfOk result (λ v. v.items ≡ answers (opened ground limits) calls.now) }
{
    let mut book = TableBook::open(ground, journal);
    drive_under_limits(heap, &mut book, limits, calls)
}
