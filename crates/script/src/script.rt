ghost use Rattle.std.specs.Prelude.{◌≡◌, ◌≤◌, length, take};
ghost use Rattle.definitions.specs.Sound.{Sound};

use definitions::operand::Definition;

/// A script of definitions, numbered from 1. It owns room for 4,096 and holds at most its limit; slots above the count are open. Every
/// script is sound: no two definitions are alike, none has equal operands, and none names a constant, itself or a later one.
// Kept: slots and a count, since the libraries use no heap.
#[derive(Drop)]
pub struct Script {
    pub(crate) slots: [Definition; 4096],
    pub(crate) count: usize,
    pub(crate) limit: usize,
    ghost room: { length slots ≡ 4096 },
    ghost within: { count ≤ limit },
    ghost bounded: { limit ≤ 4096 },
    ghost sound: { ∥ Sound (take count slots) ∥₁ },
}
