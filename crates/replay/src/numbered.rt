use algebra::boolean::BooleanAlgebra;
use algebra::dual::Dual;
use algebra::one_state::OneState;
use algebra::sampled::SampledStates;
use text::lines::cut;
use words::hexadecimal;

/// An algebra whose elements a line can write and read as numbers.
// Kept: a trait of its own, since the algebras are another crate's types and can have no `From` and no `Display` here.
pub trait Numbered: BooleanAlgebra {
    /// How many digits an element is written with.
    const DIGITS: usize;

    /// The element of a number.
    fn of(bits: u64) -> Self;

    /// The number of an element.
    fn bits(self) -> u64;
}

impl Numbered for OneState {
    const DIGITS: usize = 1;

    fn of(bits: u64) -> OneState {
        OneState {
            holds: bits % 2 == 1,
        }
    }

    fn bits(self) -> u64 {
        u64::from(self.holds)
    }
}

impl Numbered for SampledStates {
    const DIGITS: usize = 16;

    fn of(bits: u64) -> SampledStates {
        SampledStates { bits }
    }

    fn bits(self) -> u64 {
        self.bits
    }
}

impl<A: Numbered> Numbered for Dual<A> {
    const DIGITS: usize = A::DIGITS;

    fn of(bits: u64) -> Dual<A> {
        Dual { under: A::of(bits) }
    }

    fn bits(self) -> u64 {
        self.under.bits()
    }
}

/// The part that a word names, two digits, and its value, behind `=`.
fn setting(word: &[u8]) -> Option<(usize, u64)> {
    let (part, value) = cut(word, b'=');
    if part.len() != 2 || value.is_empty() {
        return None;
    }
    Some((hexadecimal(part)? as usize, hexadecimal(value)?))
}

/// Sets the parts that the words name, where there are settings for them.
pub fn set_parts<A: Numbered>(settings: &mut [A], values: &[u8]) {
    for (part, bits) in values.split(|b| *b == b' ').filter_map(setting) {
        if let Some(element) = settings.get_mut(part) {
            *element = A::of(bits);
        }
    }
}
