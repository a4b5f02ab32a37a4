ghost use Rattle.std.specs.Prelude.{◌≡◌, ◌≤◌, true, length};
ghost use Rattle.definitions.specs.Operands.{reach};
ghost use Rattle.script.specs.Script.{definitions_of, known};

use definitions::operand::Operand;
use script::script::Script;

/// An open delivery of an operand. It borrows its script, so that nothing can be added meanwhile, and it must be closed or struck: it
/// may not be let go.
pub struct Delivery<'a> {
    pub(crate) script: &'a Script,
    pub(crate) operand: Operand,
    pub(crate) sent: usize,
    ghost readable: { known (length (definitions_of script.now)) operand ≡ true },
    ghost upto: { sent ≤ reach operand },
}
