ghost use Rattle.std.specs.Prelude.{◌≡◌, ℕ, List};
ghost use Rattle.text.specs.Lines.{up_to, behind, lines_of};

use std::marker::Model;

/// The lines of a text that are still to come, each without its 0A.
#[derive(Drop)]
pub struct Lines<'a> {
    rest: &'a [u8],
}

impl<'a> Model for Lines<'a> {
    ghost Value = { List (List ℕ) };

    ghost view = { λ s. lines_of s.rest.now };
}

/// A text cut at its first `mark`: the bytes before it, and the bytes behind it; all and none where there is no such byte.
pub fn cut<'a>(text: &'a [u8], mark: u8) -> (&'a [u8], &'a [u8])
    ensures front { result.0.now ≡ up_to mark text.now }
    ensures back { result.1.now ≡ behind mark text.now }
{
    match text.iter().position(|b| *b == mark) {
        Some(end) => (&text[..end], &text[end + 1..]),
        None => (text, &[]),
    }
}

impl<'a> Lines<'a> {
    /// All lines of a text.
    pub fn new(text: &'a [u8]) -> Lines<'a>
        ensures { result ≡ lines_of text.now }
    {
        Lines { rest: text }
    }
}

impl<'a> Iterator for Lines<'a> {
    ghost use Rattle.std.specs.Iterator.{YieldsFirstBy, item_count};

    type Item = &'a [u8];

    ghost next_gives = { YieldsFirstBy (λ l. l.now) (λ s. s) };

    ghost remaining = { item_count (λ s. s) };

    #[tactic(auto, using(crate::proofs::FirstLine::first_line))]
    fn next(&mut self) -> Option<&'a [u8]> {
        if self.rest.is_empty() {
            return None;
        }
        let (line, rest) = cut(self.rest, 0x0A);
        self.rest = rest;
        Some(line)
    }
}
