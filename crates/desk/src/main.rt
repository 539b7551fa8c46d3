// Drives an example list of calls through a table book under an agent limit under a member limit, and prints each call
// with its answer, and then the cells that are not all zero.
#![tactic(auto)]

mod cells;
mod example;
mod lines;
mod report;
mod row;
mod session;

use books::Entry;
use example::{example_calls, example_opening};
use ledger::Ground;
use limits::Limits;
use report::report_of;
use session::run;
use std::alloc::Global;
use std::io;
use terms::Failure;

fn main(rt: HostRuntime) -> io::Result<()> {
    match example_report(rt.alloc()) {
        Ok(text) => rt.print(text),
        Err(Failure::Refused(refusal)) => rt.println(refusal),
        Err(Failure::NoMemory) => rt.println("no memory"),
    }
}

fn example_report(heap: Global) -> Result<String, Failure> {
    let opening = example_opening(heap)?;
    let limits = Limits::of(heap, &opening)?;
    let ground = Ground::of(heap, &opening)?;
    let calls = example_calls();
    // An array: the journal is lent with room for all entries, so that no call takes memory.
    let mut journal = [Entry::BLANK; 4096];
    let outcome = run(heap, ground, &mut journal, limits, &calls)?;
    let text = report_of(heap, &calls, &outcome.answers, &outcome.rows)?;
    Ok(text)
}
