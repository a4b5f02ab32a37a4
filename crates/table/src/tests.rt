use crate::read::read;
use rack::refusal::{ColumnNumber, LineNumber, Position, Refusal};
use rack::way::WayRecord;
use std::process::Abort;

/// The refusal of a text that is read into two records, if it is refused.
fn told(text: &[u8]) -> Option<Refusal> {
    let mut records = [WayRecord::BLANK; 2];
    match read(&mut records, text) {
        Ok(_) => None,
        Err(unread) => Some(unread.refusal),
    }
}

fn expect(rt: &impl Abort, text: &[u8], number: u8, line: usize, column: usize) {
    let position = Position {
        line: LineNumber(line),
        column: ColumnNumber(column),
    };
    let refusal = told(text);
    assert_eq!(rt; refusal.map(|refusal| refusal.number()), Some(number));
    assert!(rt; refusal.and_then(|refusal| refusal.position()) == Some(position));
}

fn accepted(rt: &impl Abort, text: &[u8]) {
    assert!(rt; told(text).is_none());
}

#[test]
fn line_length(rt: HostRuntime) {
    expect(&rt, b"\n", 1, 1, 1);
    expect(&rt, b"100001\n200\n", 1, 2, 1);
    accepted(&rt, b"100001\n2000\n300001");
}

#[test]
fn digits(rt: HostRuntime) {
    expect(&rt, b"10000a\n", 2, 1, 6);
    expect(&rt, b"100001\n200G\n", 2, 2, 4);
    accepted(&rt, b"10000A\n300000");
}

#[test]
fn kinds(rt: HostRuntime) {
    expect(&rt, b"000001\n", 3, 1, 1);
    expect(&rt, b"100001\n40\n", 3, 2, 1);
}

#[test]
fn due(rt: HostRuntime) {
    expect(&rt, b"", 4, 1, 1);
    expect(&rt, b"300000\n", 4, 1, 1);
    expect(&rt, b"100001\n", 4, 2, 1);
    expect(&rt, b"100001\n300000\n2000\n", 4, 3, 1);
    expect(&rt, b"100001\n300000\n200\n", 1, 3, 1);
    accepted(&rt, b"100001\n300000\n");
}

#[test]
fn fits(rt: HostRuntime) {
    expect(&rt, b"1000\n", 5, 1, 1);
    expect(&rt, b"100001\n2001\n", 5, 2, 1);
    accepted(&rt, b"100001\n20010020\n300001\n");
}

#[test]
fn signs(rt: HostRuntime) {
    expect(&rt, b"100001\n20010220\n", 6, 2, 5);
    expect(&rt, b"100001\n200200120220\n", 6, 2, 9);
    accepted(&rt, b"100001\n20010120\n300001\n");
}

#[test]
fn weights(rt: HostRuntime) {
    expect(&rt, b"100001\n200200120020\n", 7, 2, 9);
    expect(&rt, b"100001\n200200200020\n", 7, 2, 9);
    accepted(&rt, b"100001\n200200200012\n300001\n");
    accepted(&rt, b"100001\n200200200120\n300001\n");
}

#[test]
fn records(rt: HostRuntime) {
    expect(&rt, b"100001\n2000\n2000\n2000\n", 8, 4, 1);
    accepted(&rt, b"100001\n2000\n2000\n300002\n");
}

#[test]
fn counts(rt: HostRuntime) {
    expect(&rt, b"100001\n2000\n300002\n", 9, 3, 3);
    expect(&rt, b"100001\n2000\n300000\n", 9, 3, 3);
    accepted(&rt, b"100001\n2000\n300001\n");
}
