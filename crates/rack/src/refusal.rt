ghost use Rattle.std.specs.Prelude.{◌≡◌};
ghost use Rattle.rack.specs.Refusals.{number_of, position_of, layer_of};

/// A line of a text, counted from 1.
#[derive(Clone, Copy, PartialEq, Eq)]
pub struct LineNumber(pub usize);

/// A byte of a line, counted from 1.
#[derive(Clone, Copy, PartialEq, Eq)]
pub struct ColumnNumber(pub usize);

/// Where in a text something stands.
#[derive(Clone, Copy, PartialEq, Eq)]
pub struct Position {
    pub line: LineNumber,
    pub column: ColumnNumber,
}

/// The layer of reading that tells a refusal: the bytes of a line, the frame that they form, or the table that it goes into.
#[derive(Clone, Copy, PartialEq, Eq)]
pub enum Layer {
    Line,
    Frame,
    Table,
}

/// Why a call is refused. The nine that reading tells have a position in the text.
#[derive(Clone, Copy, PartialEq, Eq)]
pub enum Refusal {
    /// 1: a line is empty, of odd length, or longer than 100 bytes.
    LineLength(Position),
    /// 2: a byte is no digit.
    NoDigit(Position),
    /// 3: a frame's kind is none of 10, 20 and 30.
    UnknownKind(Position),
    /// 4: a frame's kind is not due here, a line stands after the end, or no end came.
    NotDue(Position),
    /// 5: the digits do not fit the kind and the count.
    Misfit(Position),
    /// 6: a sign is above 01.
    UnknownSign(Position),
    /// 7: a literal's weight is not above the one before.
    NotRising(Position),
    /// 8: the way records are used up, or 256 ways are entered.
    TableFull(Position),
    /// 9: the end's count is not the number of ways entered.
    WrongCount(Position),
    /// 10: a new definition is due and the script's limit is reached.
    LimitReached,
    /// 11: a definition operand is 0 or above the script's count.
    NoSuchDefinition,
    /// 12: the settings are not 256.
    WrongSettings,
    /// 13: the working memory is short.
    MemoryShort,
    /// 14: the line buffer has under 17 bytes.
    BufferShort,
    /// 15: a next where all is sent, or a close where some is unsent.
    OutOfTurn,
}

impl Refusal {
    /// The refusal's number, 1 to 15.
    // Kept: a method, beside `position` and `layer`, since a `From` for one of the three is no plainer.
    pub fn number(&self) -> u8
        ensures { result ≡ number_of self.now }
    {
        match self {
            Refusal::LineLength(_) => 1,
            Refusal::NoDigit(_) => 2,
            Refusal::UnknownKind(_) => 3,
            Refusal::NotDue(_) => 4,
            Refusal::Misfit(_) => 5,
            Refusal::UnknownSign(_) => 6,
            Refusal::NotRising(_) => 7,
            Refusal::TableFull(_) => 8,
            Refusal::WrongCount(_) => 9,
            Refusal::LimitReached => 10,
            Refusal::NoSuchDefinition => 11,
            Refusal::WrongSettings => 12,
            Refusal::MemoryShort => 13,
            Refusal::BufferShort => 14,
            Refusal::OutOfTurn => 15,
        }
    }

    /// Where in the text it is told; none for the refusals that are not about a text.
    pub fn position(&self) -> Option<Position>
        ensures { result ≡ position_of self.now }
    {
        match self {
            Refusal::LineLength(at)
            | Refusal::NoDigit(at)
            | Refusal::UnknownKind(at)
            | Refusal::NotDue(at)
            | Refusal::Misfit(at)
            | Refusal::UnknownSign(at)
            | Refusal::NotRising(at)
            | Refusal::TableFull(at)
            | Refusal::WrongCount(at) => Some(*at),
            _ => None,
        }
    }

    /// The layer of reading that tells it; none for the refusals that are not about a text.
    pub fn layer(&self) -> Option<Layer>
        ensures { result ≡ layer_of self.now }
    {
        match self {
            Refusal::LineLength(_) | Refusal::NoDigit(_) => Some(Layer::Line),
            Refusal::UnknownKind(_) | Refusal::Misfit(_) | Refusal::UnknownSign(_) => Some(
                Layer::Frame,
            ),
            Refusal::NotDue(_)
            | Refusal::NotRising(_)
            | Refusal::TableFull(_)
            | Refusal::WrongCount(_) => Some(Layer::Table),
            _ => None,
        }
    }
}
