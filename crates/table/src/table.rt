ghost use Rattle.std.specs.Prelude.{◌≤◌, length};

use rack::refusal::Refusal;
use rack::way::WayRecord;

/// The most ways that a table holds.
pub const MOST_WAYS: u16 = 256;

/// The number that a start line gives its table.
#[derive(Clone, Copy, PartialEq, Eq)]
pub struct TableNumber(pub u16);

/// A table that still takes ways, in records that the caller lends.
// Kept: records and how many of them hold a way, here and in `Unread`, since the libraries use no heap.
#[derive(Drop)]
pub struct OpenTable<'a> {
    pub(crate) number: TableNumber,
    pub(crate) entered: u16,
    pub(crate) records: &'a mut [WayRecord],
    ghost within: { entered ≤ length records.now },
}

/// A closed table: its ways in the order entered. It lends the records on, so that nobody can alter them while it stands.
#[derive(Clone, Copy)]
pub struct Table<'a> {
    pub(crate) number: TableNumber,
    pub(crate) ways: &'a [WayRecord],
}

/// What a refused reading hands back: the records, of which the first `entered` hold the ways that were entered.
#[derive(Drop)]
pub struct Unread<'a> {
    pub refusal: Refusal,
    pub entered: u16,
    pub records: &'a mut [WayRecord],
}
