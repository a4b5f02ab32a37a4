//! Replays lives of a script: reads one call a line on standard input, and writes each answer on standard output.
#![tactic(auto)]

mod answers;
mod call;
mod numbered;
mod session;

use session::Session;
use std::io;
use std::io::{Read, Write};

fn main(rt: HostRuntime) -> io::Result<()> {
    let mut input = Vec::new(rt.alloc());
    rt.stdin().read_to_end(&mut input)?;
    let answers = Session::new(rt.alloc(), &input).run()?;
    rt.stdout().write_all(&answers)
}
