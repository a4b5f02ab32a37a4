//! The words of a line, as the programs read them: methods, decimal and hexadecimal numbers, operands.
#![tactic(auto)]

ghost use Rattle.std.specs.Prelude.{◌≡◌, ℕ, ◌+◌, ◌*◌, ◌<◌, min, List, IfSome};
ghost use Rattle.text.specs.Lines.{up_to, behind};
ghost use Rattle.definitions.specs.Operands.{operand_of_kind};
ghost use Rattle.words.specs.Words.{space, digit_below, number_behind, capped, decimal_of, hexadecimal_of, operand_of_word, NamesMethod};

use definitions::operand::{DefinitionNumber, Operand};
use methods::translate::Method;
use rack::hex::digit;
use rack::part::Part;
use std::marker::Model;
use text::lines::cut;

/// What is left of a line, whose words are separated by one space each.
#[derive(Drop)]
pub struct Words<'a> {
    rest: &'a [u8],
}

impl<'a> Model for Words<'a> {
    ghost Value = { List ℕ };

    ghost view = { λ w. w.rest.now };
}

impl<'a> Words<'a> {
    /// All words of a line.
    pub fn new(line: &'a [u8]) -> Words<'a>
        ensures { result ≡ line.now }
    {
        Words { rest: line }
    }

    /// The next word; an empty one where the line is used up.
    pub fn next_word(&mut self) -> &'a [u8]
        ensures word { result.now ≡ up_to space self.old }
        ensures rest { self.new ≡ behind space self.old }
    {
        let (word, rest) = cut(self.rest, b' ');
        self.rest = rest;
        word
    }

    /// What is left of the line.
    pub fn rest(&self) -> &'a [u8]
        ensures { result.now ≡ self.now }
    {
        self.rest
    }
}

/// The digit that a byte is in a base up to 16; none where it is none.
#[inline(always)]
fn digit_below(base: u8, b: u8) -> Option<u8>
    ensures digit { result ≡ digit_below base b }
    ensures small { IfSome result (λ d. d < base) }
{
    // A base up to ten has no letters.
    if base <= 10 && b > b'9' {
        return None;
    }
    digit(b).filter(|d| *d < base)
}

/// A number with one more digit behind it, or the largest where that is too large.
#[inline(always)]
fn with_digit(n: u64, base: u8, d: u8) -> u64
    requires { d < base }
    ensures { result ≡ min (n * base + d) 18446744073709551615 }
{
    let (base, d) = (u64::from(base), u64::from(d));
    if n < u64::MAX / base {
        n * base + d
    } else {
        n.saturating_mul(base).saturating_add(d)
    }
}

/// The number that digits of a base up to 16 stand for, or the largest where it is too large; none where a byte is no such digit.
#[inline(always)]
fn number(word: &[u8], base: u8) -> Option<u64>
    requires { 0 < base }
    ensures { result ≡ capped (number_behind (digit_below base) base 0 word.now) }
{
    let mut n: u64 = 0;
    for b in word {
        let d = digit_below(base, *b)?;
        n = with_digit(n, base, d);
    }
    Some(n)
}

/// The number that a decimal word stands for, or the largest where it is too large; none where there is no digit, or a byte is none.
pub fn decimal(word: &[u8]) -> Option<usize>
    ensures { result ≡ decimal_of word.now }
{
    if word.is_empty() {
        return None;
    }
    Some(number(word, 10)? as usize)
}

/// The number that up to sixteen hexadecimal digits stand for; none for more, or where a byte is no digit.
pub fn hexadecimal(word: &[u8]) -> Option<u64>
    ensures { result ≡ hexadecimal_of word.now }
{
    if word.len() > 16 {
        return None;
    }
    number(word, 16)
}

/// The operand of a kind and a number; none where they name none.
// Kept: a kind is a number where a line is read; a `TryFrom` of a pair, with an error of its own, is no plainer than an `Option`.
fn operand_of_kind(kind: u64, number: u16) -> Option<Operand>
    ensures { result ≡ operand_of_kind kind number }
{
    match kind {
        0 if number == 0 => Some(Operand::Never),
        1 if number == 0 => Some(Operand::Always),
        2 if number < 256 => Some(Operand::Works(Part(number as u8))),
        3 if number < 256 => Some(Operand::Out(Part(number as u8))),
        4 => Some(Operand::Defined(DefinitionNumber(number))),
        _ => None,
    }
}

/// The operand of six digits, two of kind and four of number; none where they name none.
pub fn operand(word: &[u8]) -> Option<Operand>
    ensures { result ≡ operand_of_word word.now }
{
    if word.len() != 6 {
        return None;
    }
    let kind = hexadecimal(&word[0..2])?;
    let number = hexadecimal(&word[2..6])?;
    operand_of_kind(kind, number as u16)
}

/// The method of a word.
pub fn method(word: &[u8]) -> Option<Method>
    ensures { NamesMethod word.now result }
{
    match word {
        b"plain" => Some(Method::Naive),
        b"decomposed" => Some(Method::Decomposition),
        b"merged" => Some(Method::NodeMerging),
        _ => None,
    }
}
