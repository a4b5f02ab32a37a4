ghost use Rattle.std.specs.Prelude.{◌≡◌, take, MatchResult};
ghost use Rattle.table.specs.Reading.{due_line, closing};
ghost use Rattle.table.specs.Tables.{Opened, Unopened, Entering, Closed, Unclosed};

use crate::table::{MOST_WAYS, OpenTable, Table, TableNumber, Unread};
use rack::refusal::{LineNumber, Refusal};
use rack::way::{WayNumber, WayRecord};
use text::line::Line;

impl<'a> OpenTable<'a> {
    /// Opens a table by its start line, without its 0A. Refuses what is no start line, and hands the records back.
    pub fn open(records: &'a mut [WayRecord], line: &[u8]) -> Result<OpenTable<'a>, Unread<'a>>
        ensures { MatchResult result (Opened records.old line.now) (Unopened records.old line.now) }
    {
        let line = Line {
            number: LineNumber(1),
            bytes: line,
        };
        match line.start() {
            Ok(number) => Ok(OpenTable {
                number: TableNumber(number),
                entered: 0,
                records,
            }),
            Err(refusal) => Err(Unread {
                refusal,
                entered: 0,
                records,
            }),
        }
    }

    /// How many ways are entered.
    pub fn entered(&self) -> u16
        ensures { result ≡ self.now.entered }
    {
        self.entered
    }

    /// The line that is due: the start is line 1, and each way entered is one more.
    pub fn line(&self) -> LineNumber
        ensures { result.0 ≡ due_line self.now.entered }
    {
        LineNumber(usize::from(self.entered) + 2)
    }

    /// The bytes as the line that is due.
    pub(crate) fn due<'t>(&self, bytes: &'t [u8]) -> Line<'t>
        ensures number { result.number.0 ≡ due_line self.now.entered }
        ensures bytes { result.bytes.now ≡ bytes.now }
    {
        let number = self.line();
        Line { number, bytes }
    }

    /// Enters the way of a way line, without its 0A, and answers its number. Refuses what is no way line, and a way that finds no record
    /// (8).
    pub fn enter(&mut self, line: &[u8]) -> Result<WayNumber, Refusal>
        ensures answer { Entering self.old self.new line.now result }
        ensures lender { self.new.records.ghost_name ≡ self.old.records.ghost_name }
    {
        let line = self.due(line);
        let way = line.way()?;
        let n = usize::from(self.entered);
        if n >= self.records.len() || self.entered >= MOST_WAYS {
            return Err(Refusal::TableFull(line.at(1)));
        }
        self.records[n] = way;
        self.entered += 1;
        Ok(WayNumber(self.entered))
    }

    /// Whether a close by this line would be accepted; the refusal, if not.
    pub fn check_close(&self, line: &[u8]) -> Result<(), Refusal>
        ensures { result ≡ closing self.now.entered line.now }
    {
        let line = self.due(line);
        if line.end()? != self.entered {
            return Err(Refusal::WrongCount(line.at(3)));
        }
        Ok(())
    }

    /// Closes the table by its end line, without its 0A. Refuses what is no end line and a wrong count (9), and gives the table back.
    pub fn close(self, line: &[u8]) -> Result<Table<'a>, (Refusal, OpenTable<'a>)>
        ensures { MatchResult result (Closed self.entry line.now) (Unclosed self.entry line.now) }
    {
        match self.check_close(line) {
            Ok(()) => Ok(self.into_table()),
            Err(refusal) => Err((refusal, self)),
        }
    }

    /// The table of the ways entered.
    pub(crate) fn into_table(self) -> Table<'a>
        ensures number { result.number ≡ self.entry.number }
        ensures contents { result.ways.now ≡ take self.entry.entered self.entry.records.now }
    {
        let OpenTable {
            number,
            entered,
            records,
        } = self;
        Table {
            number,
            ways: &records[..usize::from(entered)],
        }
    }

    /// Gives the table up after a refusal, and the records back.
    pub fn give_up(self, refusal: Refusal) -> Unread<'a>
        ensures refusal { result.refusal ≡ refusal }
        ensures count { result.entered ≡ self.entry.entered }
        ensures contents { result.records.now ≡ self.entry.records.now }
    {
        let OpenTable {
            number: _,
            entered,
            records,
        } = self;
        Unread {
            refusal,
            entered,
            records,
        }
    }
}

impl<'a> Table<'a> {
    /// The table's number.
    pub fn number(&self) -> TableNumber
        ensures { result ≡ self.now.number }
    {
        self.number
    }

    /// The ways in the order entered.
    pub fn ways(&self) -> &'a [WayRecord]
        ensures { result.now ≡ self.now.ways.now }
    {
        self.ways
    }
}
