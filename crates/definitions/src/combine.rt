ghost use Rattle.std.specs.Prelude.{◌≡◌};
ghost use Rattle.definitions.specs.Combine.{simply, defining, combining};

use crate::draft::{Draft, LimitReached};
use crate::operand::{CAPACITY, Definition, DefinitionNumber, Operand, Operator};
use rack::find::find_first;

/// The operand that needs no definition, if there is one: the constants give way, and two equal operands are one.
fn simple(operator: Operator, first: Operand, second: Operand) -> Option<Operand>
    ensures { result ≡ simply operator first second }
{
    match (operator, first, second) {
        (Operator::Meet, Operand::Never, _) | (Operator::Meet, _, Operand::Never) => Some(
            Operand::Never,
        ),
        (Operator::Meet, Operand::Always, x) | (Operator::Meet, x, Operand::Always) => Some(x),
        (Operator::Join, Operand::Always, _) | (Operator::Join, _, Operand::Always) => Some(
            Operand::Always,
        ),
        (Operator::Join, Operand::Never, x) | (Operator::Join, x, Operand::Never) => Some(x),
        (_, first, second) if first == second => Some(first),
        _ => None,
    }
}

impl Draft<'_> {
    ghost use Rattle.definitions.specs.Writing.{Wrote};

    /// The number of an alike definition, or else the next number. Refuses that number where the limit is reached.
    fn define(&mut self, definition: Definition) -> Result<Operand, LimitReached>
        ensures { Wrote self.old self.new result (defining self.old.limit definition) }
    {
        let n = self.count.min(CAPACITY);
        let slots = &self.slots[..];
        match find_first(&slots[..n], &definition) {
            Some(i) => Ok(Operand::Defined(DefinitionNumber((i + 1) as u16))),
            None => {
                if n >= self.limit.min(CAPACITY) {
                    return Err(LimitReached);
                }
                self.slots[n] = definition;
                self.count = n + 1;
                Ok(Operand::Defined(DefinitionNumber((n + 1) as u16)))
            }
        }
    }

    /// The operand of a meet or join of two operands, by the rules in their order; what is written goes behind the first `count`
    /// definitions. Refuses a new definition where the limit is reached; a limit above 4,096 counts as 4,096.
    pub fn combine(
        &mut self,
        operator: Operator,
        first: Operand,
        second: Operand,
    ) -> Result<Operand, LimitReached>
        ensures { Wrote self.old self.new result (combining self.old.limit operator first second) }
    {
        if let Some(operand) = simple(operator, first, second) {
            return Ok(operand);
        }
        let definition = Definition {
            operator,
            first,
            second,
        };
        self.define(definition)
    }
}
