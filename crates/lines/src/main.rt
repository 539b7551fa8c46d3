// Prints the lines of an example table with their hours and an account's positions, before netting and after it: a month
// that has gone into delivery, with a week across its end, and a year netted against its quarters.
#![tactic(auto)]

mod example;
mod report;
mod row;

use example::{example_table, holdings};
use positions::positions_of;
use report::report_of;
use std::alloc::Global;
use std::io;
use terms::Failure;

fn main(rt: HostRuntime) -> io::Result<()> {
    match example_report(rt.alloc()) {
        Ok(text) => rt.print(text),
        Err(Failure::Refused(refusal)) => rt.println(refusal),
        Err(Failure::NoMemory) => rt.println("no memory"),
    }
}

fn example_report(heap: Global) -> Result<String, Failure> {
    let held = holdings();
    let table = example_table(heap, &held)?;
    let quantities = held.map(|holding| holding.quantity);
    let positions = positions_of(heap, &table, &quantities)?;
    Ok(report_of(heap, &table, &positions)?)
}
