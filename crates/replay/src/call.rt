use definitions::operand::{Definition, Operand, Operator};
use methods::translate::Method;
use words::{Words, decimal, method, operand};

/// The algebras that a line can name.
#[derive(Clone, Copy)]
pub enum Named {
    One,
    Drawn,
    Outage,
}

/// A translation: its method, how many records of both kinds it is lent, and its table, the lines joined by `/`.
#[derive(Clone, Copy)]
pub struct Translation<'a> {
    pub method: Method,
    pub way_records: usize,
    pub working_records: usize,
    pub table: &'a [u8],
}

impl<'a> Translation<'a> {
    fn of(words: &mut Words<'a>) -> Option<Translation<'a>> {
        Some(Translation {
            method: method(words.next_word())?,
            way_records: decimal(words.next_word())?,
            working_records: decimal(words.next_word())?,
            table: words.next_word(),
        })
    }
}

/// An evaluation: its algebra and operand, how many settings and elements it is lent, and the settings that are named.
#[derive(Clone, Copy)]
pub struct Evaluation<'a> {
    pub algebra: Named,
    pub operand: Operand,
    pub settings: usize,
    pub elements: usize,
    pub values: &'a [u8],
}

impl<'a> Evaluation<'a> {
    fn of(words: &mut Words<'a>) -> Option<Evaluation<'a>> {
        Some(Evaluation {
            algebra: match words.next_word() {
                b"one" => Named::One,
                b"drawn" => Named::Drawn,
                b"outage" => Named::Outage,
                _ => return None,
            },
            operand: operand(words.next_word())?,
            settings: decimal(words.next_word())?,
            elements: decimal(words.next_word())?,
            values: words.rest(),
        })
    }
}

/// One call, with what it is handed. A delivery is named by its place among the open ones, and a buffer by its length.
#[derive(Clone, Copy)]
pub enum Call<'a> {
    Open { limit: usize },
    Translate(Translation<'a>),
    Combine(Definition),
    Evaluate(Evaluation<'a>),
    Begin { operand: Operand, buffer: usize },
    Next { place: usize, buffer: usize },
    Close { place: usize, buffer: usize },
    Strike { place: usize },
}

/// The meet or join that is asked for.
fn combination(words: &mut Words<'_>) -> Option<Definition> {
    Some(Definition {
        operator: match words.next_word() {
            b"meet" => Operator::Meet,
            b"join" => Operator::Join,
            _ => return None,
        },
        first: operand(words.next_word())?,
        second: operand(words.next_word())?,
    })
}

/// A place among the open deliveries, which a line counts from 1.
fn place(words: &mut Words<'_>) -> Option<usize> {
    decimal(words.next_word())?.checked_sub(1)
}

impl<'a> Call<'a> {
    /// The call of a line; none where the line is no call.
    // Kept: a `TryFrom` is no plainer, here and for the parts of a call, since nothing is said of a line that is no call.
    pub fn of(line: &'a [u8]) -> Option<Call<'a>> {
        let mut words = Words::new(line);
        Some(match words.next_word() {
            b"open" => Call::Open {
                limit: decimal(words.next_word())?,
            },
            b"translate" => Call::Translate(Translation::of(&mut words)?),
            b"combine" => Call::Combine(combination(&mut words)?),
            b"evaluate" => Call::Evaluate(Evaluation::of(&mut words)?),
            b"begin" => Call::Begin {
                operand: operand(words.next_word())?,
                buffer: decimal(words.next_word())?,
            },
            b"next" => Call::Next {
                place: place(&mut words)?,
                buffer: decimal(words.next_word())?,
            },
            b"close" => Call::Close {
                place: place(&mut words)?,
                buffer: decimal(words.next_word())?,
            },
            b"strike" => Call::Strike {
                place: place(&mut words)?,
            },
            _ => return None,
        })
    }
}
