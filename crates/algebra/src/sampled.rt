ghost use Rattle.std.specs.Prelude.{◌≡◌, ◌-◌, ◌^◌, Decides, bit_and, bit_or};
ghost use Rattle.algebra.specs.Models.{sampled, samples};
ghost use Rattle.std.proofs.Common.{rules};

use crate::boolean::BooleanAlgebra;

/// In which of 64 sampled states something holds, one state a bit.
#[derive(Clone, Copy, PartialEq, Eq)]
pub struct SampledStates {
    pub bits: u64,
}

// Kept: no one impl with OneState, since std's `&`, `|` and `!` promise no laws, and a trait that does is the one that is implemented here.
impl BooleanAlgebra for SampledStates {
    ghost algebra = { sampled };

    ghost value = { λ s. samples s.bits };

    ghost lattice = { Prim.search rules };

    ghost complemented = { Prim.search rules };

    fn bottom() -> SampledStates
        ensures value { samples result.bits ≡ sampled.bottom }
        ensures bits { result.bits ≡ 0 }
    {
        SampledStates { bits: 0 }
    }

    fn top() -> SampledStates
        ensures value { samples result.bits ≡ sampled.top }
        ensures bits { result.bits ≡ 2 ^ 64 - 1 }
    {
        SampledStates { bits: u64::MAX }
    }

    fn meet(self, other: SampledStates) -> SampledStates
        ensures value { samples result.bits ≡ sampled.meet (samples self.bits) (samples other.bits) }
        ensures bits { result.bits ≡ bit_and self.bits other.bits }
    {
        SampledStates {
            bits: self.bits & other.bits,
        }
    }

    fn join(self, other: SampledStates) -> SampledStates
        ensures value { samples result.bits ≡ sampled.join (samples self.bits) (samples other.bits) }
        ensures bits { result.bits ≡ bit_or self.bits other.bits }
    {
        SampledStates {
            bits: self.bits | other.bits,
        }
    }

    fn complement(self) -> SampledStates
        ensures value { samples result.bits ≡ sampled.complement (samples self.bits) }
        ensures bits { result.bits ≡ 2 ^ 64 - 1 - self.bits }
    {
        SampledStates { bits: !self.bits }
    }
}

/// Whether two hold in the same of the 64 states: their values are equal exactly where their bits are.
// Kept: a call beside the derived equality, since it promises what equal bits say of the values.
pub fn same_states(a: SampledStates, b: SampledStates) -> bool
    ensures bits { Decides result (a.bits ≡ b.bits) }
    ensures value { Decides result (samples a.bits ≡ samples b.bits) }
{
    a == b
}
