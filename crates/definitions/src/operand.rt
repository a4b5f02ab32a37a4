ghost use Rattle.std.specs.Prelude.{◌≡◌};
ghost use Rattle.std.proofs.Common.{rules};
ghost use Rattle.definitions.specs.Operands.{kind, number, code, reach, operand_of};

use rack::find::Exact;
use rack::part::{Literal, Part, Sign};

/// The most definitions that a script holds.
pub const CAPACITY: usize = 4096;

/// The number of a definition in its script, from 1.
#[derive(Clone, Copy, PartialEq, Eq)]
pub struct DefinitionNumber(pub u16);

/// How a definition joins its two operands.
#[derive(Clone, Copy, PartialEq, Eq)]
pub enum Operator {
    Meet,
    Join,
}

impl From<Operator> for u8 {
    ghost from_gives = { λ o c. c ≡ code o };

    /// The code of an operator, as a line writes it.
    fn from(operator: Operator) -> u8 {
        operator as u8
    }
}

/// What a definition is made of, and what a translation answers.
#[derive(Clone, Copy, PartialEq, Eq)]
pub enum Operand {
    Never,
    Always,
    Works(Part),
    Out(Part),
    Defined(DefinitionNumber),
}

impl Operand {
    /// How many definitions the operand needs: its number where it is a definition, and otherwise 0.
    pub fn reach(self) -> u16
        ensures { result ≡ reach self }
    {
        match self {
            Operand::Defined(number) => number.0,
            _ => 0,
        }
    }

    /// The operand's kind, as a line writes it.
    // Kept: kind and number are methods, since a line writes both, and a `From` could give but one of them.
    pub fn kind(self) -> u8
        ensures { result ≡ kind self }
    {
        match self {
            Operand::Never => 0,
            Operand::Always => 1,
            Operand::Works(_) => 2,
            Operand::Out(_) => 3,
            Operand::Defined(_) => 4,
        }
    }

    /// The operand's number, as a line writes it: of its part or of its definition, and 0 for a constant.
    pub fn number(self) -> u16
        ensures { result ≡ number self }
    {
        match self {
            Operand::Never | Operand::Always => 0,
            Operand::Works(part) | Operand::Out(part) => u16::from(part.0),
            Operand::Defined(number) => number.0,
        }
    }
}

impl From<Literal> for Operand {
    ghost from_gives = { λ l x. x ≡ operand_of l };

    /// The operand of a literal: its part, which works or is out.
    fn from(literal: Literal) -> Operand {
        match literal.sign {
            Sign::Works => Operand::Works(literal.part),
            Sign::Out => Operand::Out(literal.part),
        }
    }
}

/// The meet or join of two earlier things.
#[derive(Clone, Copy, PartialEq, Eq)]
pub struct Definition {
    pub operator: Operator,
    pub first: Operand,
    pub second: Operand,
}

impl Definition {
    /// What stands in a slot that holds no definition yet.
    pub const BLANK: Definition = Definition {
        operator: Operator::Meet,
        first: Operand::Never,
        second: Operand::Never,
    };
}

impl Exact for Operand {
    ghost exact = { Prim.search rules };
}

impl Exact for Definition {
    ghost use Rattle.definitions.specs.Exact.{exact_by_parts};

    ghost exact = { exact_by_parts ⟦<Operator as PartialEq>⟧.eq ⟦<Operand as PartialEq>⟧.eq (Prim.search rules) (Prim.search rules) };
}
