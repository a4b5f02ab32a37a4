//! Reads a table on standard input, and writes its merged delivery, or the line that tells its first refusal, on standard output.
#![tactic(auto)]

use definitions::operand::CAPACITY;
use methods::translate::Method;
use preprocess::answer::answer;
use rack::way::WayRecord;
use std::io;
use std::io::{Read, Write};
use working::record::WorkingRecord;

/// How many bytes of standard input are read.
const MOST_BYTES: u64 = 32768;

/// How many working records the largest good table needs.
const WORKING_RECORDS: usize = 6657;

fn main(rt: HostRuntime) -> io::Result<()> {
    let mut text = Vec::new(rt.alloc());
    rt.stdin().take(MOST_BYTES).read_to_end(&mut text)?;
    let mut records = [WayRecord::BLANK; 256];
    let mut work = vec![in rt.alloc(); WorkingRecord::BLANK; WORKING_RECORDS]?;
    let mut out = Vec::new(rt.alloc());
    answer(
        &text,
        Method::NodeMerging,
        CAPACITY,
        &mut records,
        &mut work,
        &mut out,
    )?;
    rt.stdout().write_all(&out)
}
