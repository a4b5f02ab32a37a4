ghost use Rattle.std.specs.Prelude.{◌≡◌, ◌+◌, ◌<◌, ◌≤◌, length, IfSome, IfOk};
ghost use Rattle.rack.specs.Rank.{rank_of};
ghost use Rattle.rack.specs.Way.{way_of};
ghost use Rattle.text.specs.Frames.{word_at, by_kind, frame_at, start_at, end_at, literals_from, literals_at, rises, not_rising, rising, way_at};
ghost use Rattle.text.specs.Seen.{digits_of, seen, way_read};

use crate::digits::{byte, decode};
use crate::line::Line;
use rack::part::{Literal, Part, Sign};
use rack::refusal::{Position, Refusal};
use rack::way::WayRecord;

/// A frame by its kind. It is a part of the line itself: the digits after the kind, and where they begin.
// Kept: that a frame is one of three cases, each of which borrows its line's digits, is a rule of the project.
#[derive(Clone, Copy)]
pub enum Frame<'a> {
    Start { at: Position, digits: &'a [u8] },
    Way { at: Position, digits: &'a [u8] },
    End { at: Position, digits: &'a [u8] },
}

// Kept: `start`, `end` and `way` each take their case of the frame, since one function for the three would need an enum of the kinds.
impl<'a> Line<'a> {
    /// The frame of the line. Refuses a line by its length (1), its digits (2) or its kind (3).
    pub fn frame(self) -> Result<Frame<'a>, Refusal>
        ensures frame { seen result ≡ frame_at self.entry.number.0 self.entry.bytes.now }
        ensures short { IfOk result (λ f. length (digits_of f) ≤ 98) }
    {
        self.check()?;
        // Kept: a buffer and how much of it is filled, here and in `way`, since the libraries use no heap.
        let mut bytes = [0u8; 50];
        let n = decode(self.bytes, &mut bytes);
        self.by_kind(&bytes[..n])
    }

    /// The frame by the bytes that the line's digits stand for: the first is the kind. Refuses an unknown kind (3).
    fn by_kind(self, bytes: &[u8]) -> Result<Frame<'a>, Refusal>
        requires { 2 ≤ length self.bytes.now }
        ensures frame { seen result ≡ by_kind self.entry.number.0 self.entry.bytes.now bytes.now }
        ensures short { IfOk result (λ f. length (digits_of f) + 2 ≡ length self.entry.bytes.now) }
    {
        let at = self.at(3);
        let digits = &self.bytes[2..];
        match bytes {
            [0x10, ..] => Ok(Frame::Start { at, digits }),
            [0x20, ..] => Ok(Frame::Way { at, digits }),
            [0x30, ..] => Ok(Frame::End { at, digits }),
            _ => Err(Refusal::UnknownKind(self.at(1))),
        }
    }

    /// The number that a start line gives its table. Refuses 1 to 3, another kind (4), or digits that do not fit (5).
    pub fn start(self) -> Result<u16, Refusal>
        ensures { result ≡ start_at self.entry.number.0 self.entry.bytes.now }
    {
        let Frame::Start { at: _, digits } = self.frame()? else {
            return Err(Refusal::NotDue(self.at(1)));
        };
        self.word(digits)
    }

    /// The count that an end line states. Refuses 1 to 3, another kind (4), or digits that do not fit (5).
    pub fn end(self) -> Result<u16, Refusal>
        ensures { result ≡ end_at self.entry.number.0 self.entry.bytes.now }
    {
        let Frame::End { at: _, digits } = self.frame()? else {
            return Err(Refusal::NotDue(self.at(1)));
        };
        self.word(digits)
    }

    /// The way of a way line. Refuses 1 to 3, another kind (4), digits that do not fit (5), an unknown sign (6), or a literal that does
    /// not rise (7).
    pub fn way(self) -> Result<WayRecord, Refusal>
        ensures { way_read result ≡ way_at self.entry.number.0 self.entry.bytes.now }
    {
        let Frame::Way { at: _, digits } = self.frame()? else {
            return Err(Refusal::NotDue(self.at(1)));
        };
        let mut bytes = [0u8; 49];
        let n = decode(digits, &mut bytes);
        let way = self.literals(&bytes[..n])?;
        self.rising(way)
    }

    /// The number of four digits. Refuses any other number of digits (5).
    fn word(self, digits: &[u8]) -> Result<u16, Refusal>
        ensures { result ≡ word_at self.entry.number.0 digits.now }
    {
        let [a, b, c, d] = digits else {
            return Err(Refusal::Misfit(self.at(1)));
        };
        Ok(u16::from_be_bytes([byte(*a, *b), byte(*c, *d)]))
    }

    /// The literals of the bytes after a way's kind: their count, then a sign and a part for each. Refuses bytes that do not fit the
    /// count (5), and the first sign above 01 (6).
    fn literals(self, bytes: &[u8]) -> Result<WayRecord, Refusal>
        requires { length bytes.now ≤ 49 }
        ensures { way_read result ≡ literals_at self.entry.number.0 bytes.now }
    {
        match bytes {
            [count, body @ ..] if body.len() == 2 * usize::from(*count) => self.signed(body),
            _ => Err(Refusal::Misfit(self.at(1))),
        }
    }

    /// The literals of pairs of bytes, a sign and a part. Refuses the first sign above 01 (6).
    fn signed(self, body: &[u8]) -> Result<WayRecord, Refusal>
        requires { length body.now ≤ 48 }
        ensures { way_read result ≡ literals_from self.entry.number.0 0 body.now }
    {
        // Kept: places are counted, as in `decode`, and go into a record of fixed size.
        let mut places = [Literal::BLANK; 24];
        let (pairs, _) = body.as_chunks::<2>();
        for (k, [sign, part]) in pairs.iter().enumerate() {
            let Ok(sign) = Sign::try_from(*sign) else {
                return Err(Refusal::UnknownSign(self.at(5 + 4 * k)));
            };
            let part = Part(*part);
            places[k] = Literal { part, sign };
        }
        let count = pairs.len();
        Ok(WayRecord { places, count })
    }

    /// The way. Refuses the first literal whose weight is not above the one before (7).
    fn rising(self, way: WayRecord) -> Result<WayRecord, Refusal>
        ensures { way_read result ≡ rising self.entry.number.0 (way_of way) }
    {
        match not_rising(way.literals()) {
            Some(k) => Err(Refusal::NotRising(self.at(5 + 4 * (k + 1)))),
            None => Ok(way),
        }
    }
}

/// The place of the first literal behind which one does not rise.
fn not_rising(way: &[Literal]) -> Option<usize>
    ensures value { result ≡ not_rising rank_of way.now }
    ensures inside { IfSome result (λ k. k + 1 < length way.now) }
{
    way.iter()
        .zip(way.iter().skip(1))
        .position(|(before, literal)| !rises(before, literal))
}

/// Whether the weight of a literal is above that of the one before.
fn rises(before: &Literal, literal: &Literal) -> bool
    ensures { result ≡ rises rank_of before.now literal.now }
{
    before.weight() < literal.weight()
}
