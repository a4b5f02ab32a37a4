ghost use Rattle.std.specs.Prelude.{◌≡◌, length};
ghost use Rattle.text.specs.Frames.{frame_at};
ghost use Rattle.text.specs.Lines.{lines_of};
ghost use Rattle.table.specs.Reading.{tail_at, is_end, read_lines};
ghost use Rattle.table.specs.Tables.{Filled, Filling, reading, LeftBehind};

use crate::table::{OpenTable, Table, Unread};
use rack::refusal::{LineNumber, Refusal};
use rack::way::WayRecord;
use text::frame::Frame;
use text::line::Line;
use text::lines::Lines;

/// Whether a line reads as an end.
fn is_end(line: Line<'_>) -> bool
    ensures { result ≡ is_end (frame_at line.entry.number.0 line.entry.bytes.now) }
{
    matches!(line.frame(), Ok(Frame::End { at: _, digits: _ }))
}

/// Refuses the first of the lines after an end, if there is one: by its own fault (1 to 3), or as not due (4).
fn check_tail(mut lines: Lines<'_>, number: LineNumber) -> Result<(), Refusal>
    ensures { result ≡ tail_at number.0 lines.entry }
{
    let Some(bytes) = lines.next() else {
        return Ok(());
    };
    let line = Line { number, bytes };
    line.frame()?;
    Err(Refusal::NotDue(line.at(1)))
}

impl<'a> OpenTable<'a> {
    /// Enters the lines up to one that reads as an end, which has to close the table and to be the last. Refuses the first line that
    /// fails, and a text that has no end (4).
    fn fill(&mut self, mut lines: Lines<'_>) -> Result<(), Refusal>
        ensures outcome { Filling self.old lines.entry self.new result }
        ensures filled { Filled self.old self.new }
        ensures lender { self.new.records.ghost_name ≡ self.old.records.ghost_name }
    {
        while let Some(bytes) = lines.next() {
            if is_end(self.due(bytes)) {
                self.check_close(bytes)?;
                let after = LineNumber(usize::from(self.entered) + 3);
                return check_tail(lines, after);
            }
            self.enter(bytes)?;
        }
        Err(Refusal::NotDue(self.due(b"").at(1)))
    }
}

/// Reads a whole text: its first line opens the table, the last closes it, and those between are entered. A refusal hands the records
/// back, with the ways that were entered before it.
pub fn read<'a>(records: &'a mut [WayRecord], text: &[u8]) -> Result<Table<'a>, Unread<'a>>
    ensures answer { reading result ≡ read_lines (length records.old) (lines_of text.now) }
    ensures behind { LeftBehind records.old result }
{
    let mut lines = Lines::new(text);
    let Some(first) = lines.next() else {
        let line = Line {
            number: LineNumber(1),
            bytes: b"",
        };
        return Err(Unread {
            refusal: Refusal::NotDue(line.at(1)),
            entered: 0,
            records,
        });
    };
    let mut open = OpenTable::open(records, first)?;
    match open.fill(lines) {
        Ok(()) => Ok(open.into_table()),
        Err(refusal) => Err(open.give_up(refusal)),
    }
}
