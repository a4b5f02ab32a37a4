//! Runs outside cases: reads one case a line on standard input, and writes the answers, one behind the other, on standard output.
#![tactic(auto)]

mod case;

use case::Case;
use preprocess::answer::answer;
use rack::way::WayRecord;
use std::alloc::{AllocError, Global};
use std::io;
use std::io::{Read, Write};
use text::digits::decode;
use text::lines::Lines;
use working::record::WorkingRecord;

/// More way records than a table can use, and more working records than a translation can need.
// Kept: the bound stands in `replay` too, since the two programs share no crate of their own.
const ENOUGH: usize = 8192;

/// Adds the answer of a case, with the memory that it is lent.
fn run(heap: Global, case: &Case<'_>, out: &mut Vec<u8>) -> Result<(), AllocError> {
    let mut text = vec![in heap; 0u8; case.text.len() / 2]?;
    decode(case.text, &mut text);
    let mut records = vec![in heap; WayRecord::BLANK; case.way_records.min(ENOUGH)]?;
    let mut work = vec![in heap; WorkingRecord::BLANK; case.working_records.min(ENOUGH)]?;
    answer(&text, case.method, case.limit, &mut records, &mut work, out)
}

fn main(rt: HostRuntime) -> io::Result<()> {
    let mut input = Vec::new(rt.alloc());
    rt.stdin().read_to_end(&mut input)?;
    let mut out = Vec::new(rt.alloc());
    for case in Lines::new(&input).filter_map(Case::of) {
        run(rt.alloc(), &case, &mut out)?;
    }
    rt.stdout().write_all(&out)
}
