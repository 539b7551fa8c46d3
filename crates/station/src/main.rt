// Reads a margin file on the input and prints what the station says of it.
#![tactic(auto)]

use session::printed;
use std::io;
use std::io::Read;

fn main(rt: HostRuntime) -> io::Result<()> {
    let mut file = Vec::new(rt.alloc());
    rt.stdin().read_to_end(&mut file)?;
    let text = printed(rt.alloc(), &file)?;
    rt.print(text)
}
