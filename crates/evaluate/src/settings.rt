ghost use Rattle.std.specs.Prelude.{◌≡◌, ◌-◌, List, map, length, slice_index_or};
ghost use Rattle.algebra.specs.Worth.{operand_worth, definition_worth};
ghost use Rattle.evaluate.specs.Evaluation.{settings_of};

use algebra::boolean::BooleanAlgebra;
use definitions::operand::{Definition, DefinitionNumber, Operand, Operator};
use std::marker::Model;

/// The settings of the parts, one a part.
#[derive(Drop)]
pub(crate) struct Settings<'a, A> {
    // Kept: no `&'a [A; 256]`, since to make one of a slice asks that 256 elements of any type fit into memory, which no caller knows.
    pub elements: &'a [A],
}

/// Seen as the list of the elements, which are 256.
impl<'a, A> Model for Settings<'a, A> {
    ghost Value = { List A };

    ghost view = { λ s. s.elements.now };

    ghost invariant = { λ s. length s.elements.now ≡ 256 };
}

/// The element of a definition by its number, among those that are worked out, and bottom past their end.
fn look_up<A: BooleanAlgebra>(number: DefinitionNumber, done: &[A]) -> A
    ensures { A.value result ≡ slice_index_or (map A.value done.now) (number.0 - 1) A.algebra.bottom }
{
    let place = usize::from(number.0).saturating_sub(1);
    // Kept: a match, since `unwrap_or` makes a bottom each time, and the check does not cover `unwrap_or_else(A::bottom)`.
    match done.get(place) {
        Some(element) => *element,
        None => A::bottom(),
    }
}

impl<A: BooleanAlgebra> Settings<'_, A> {
    /// The element of an operand, by the definitions that are worked out.
    pub(crate) fn operand_element(&self, operand: Operand, done: &[A]) -> A
        ensures { A.value result ≡ operand_worth A.algebra (settings_of A.algebra (map A.value self.now)) (map A.value done.now) operand }
    {
        match operand {
            Operand::Never => A::bottom(),
            Operand::Always => A::top(),
            Operand::Works(part) => self.elements[usize::from(part.0)],
            Operand::Out(part) => self.elements[usize::from(part.0)].complement(),
            Operand::Defined(number) => look_up(number, done),
        }
    }

    /// The element of a definition: one operation on its two operands.
    pub(crate) fn definition_element(&self, definition: &Definition, done: &[A]) -> A
        ensures { A.value result ≡ definition_worth A.algebra (settings_of A.algebra (map A.value self.now)) (map A.value done.now) definition.now }
    {
        let first = self.operand_element(definition.first, done);
        let second = self.operand_element(definition.second, done);
        match definition.operator {
            Operator::Meet => first.meet(second),
            Operator::Join => first.join(second),
        }
    }
}
