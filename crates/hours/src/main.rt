// For each line `PROFILE MATURITY YYYYMMDD` of the input: first day, last day, count of days, count of delivery hours,
// or the number of the refusal.
#![tactic(auto)]

mod answer;
mod report;

use report::report_on;
use std::io;
use std::io::Read;

fn main(rt: HostRuntime) -> io::Result<()> {
    let mut input = Vec::new(rt.alloc());
    rt.stdin().read_to_end(&mut input)?;
    let text = report_on(rt.alloc(), &input)?;
    rt.print(text)
}
