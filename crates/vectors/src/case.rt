use methods::translate::Method;
use words::{Words, decimal, method};

/// One case: how a table is translated, with how much memory, and its text, two digits a byte.
#[derive(Drop)]
pub struct Case<'a> {
    pub method: Method,
    pub limit: usize,
    pub way_records: usize,
    pub working_records: usize,
    pub text: &'a [u8],
}

impl<'a> Case<'a> {
    /// The case of a line; none where the line is no case. A text of `-` is the empty text.
    // Kept: a `TryFrom` is no plainer, since it wants an error type, and nothing is said of a line that is no case.
    pub fn of(line: &'a [u8]) -> Option<Case<'a>> {
        let mut words = Words::new(line);
        Some(Case {
            method: method(words.next_word())?,
            limit: decimal(words.next_word())?,
            way_records: decimal(words.next_word())?,
            working_records: decimal(words.next_word())?,
            text: words.next_word(),
        })
    }
}
