ghost use Rattle.std.specs.Prelude.{◌≡◌, ◌<◌, ◌≤◌, length, IfSome, OnOk};
ghost use Rattle.text.specs.Frames.{at, no_digit, checked};

use rack::hex::digit;
use rack::refusal::{ColumnNumber, LineNumber, Position, Refusal};

/// The longest line, in bytes.
pub const LONGEST_LINE: usize = 100;

/// A line of a text: its number in the text, and its bytes without the 0A.
#[derive(Clone, Copy)]
pub struct Line<'a> {
    pub number: LineNumber,
    pub bytes: &'a [u8],
}

impl<'a> Line<'a> {
    /// A column of the line.
    pub fn at(self, column: usize) -> Position
        ensures { result ≡ at self.entry.number.0 column }
    {
        Position {
            line: self.number,
            column: ColumnNumber(column),
        }
    }

    /// Refuses a line of a wrong length (1), or else the first byte of it that is no digit (2).
    pub fn check(self) -> Result<(), Refusal>
        ensures refusal { result ≡ checked self.entry.number.0 self.entry.bytes.now }
        ensures long { OnOk result ((2 ≤ length self.entry.bytes.now) × (length self.entry.bytes.now ≤ 100)) }
    {
        let n = self.bytes.len();
        if n == 0 || n % 2 != 0 || n > LONGEST_LINE {
            return Err(Refusal::LineLength(self.at(1)));
        }
        match no_digit(self.bytes) {
            Some(i) => Err(Refusal::NoDigit(self.at(i + 1))),
            None => Ok(()),
        }
    }
}

/// The place of the first byte that is no digit.
fn no_digit(bytes: &[u8]) -> Option<usize>
    ensures value { result ≡ no_digit bytes.now }
    ensures inside { IfSome result (λ i. i < length bytes.now) }
{
    bytes.iter().position(|b| digit(*b).is_none())
}
