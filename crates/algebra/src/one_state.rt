ghost use Rattle.std.specs.Prelude.{◌≡◌, true, false, not, ◌&&◌, ◌||◌};
ghost use Rattle.algebra.specs.Models.{one_state};
ghost use Rattle.std.proofs.Common.{rules};

use crate::boolean::BooleanAlgebra;

/// Whether something holds, in the one state that is looked at.
#[derive(Clone, Copy, PartialEq, Eq)]
pub struct OneState {
    pub holds: bool,
}

impl BooleanAlgebra for OneState {
    ghost algebra = { one_state };

    ghost value = { λ s. s.holds };

    ghost lattice = { Prim.search rules };

    ghost complemented = { Prim.search rules };

    fn bottom() -> OneState
        ensures { result.holds ≡ false }
    {
        OneState { holds: false }
    }

    fn top() -> OneState
        ensures { result.holds ≡ true }
    {
        OneState { holds: true }
    }

    fn meet(self, other: OneState) -> OneState
        ensures { result.holds ≡ (self.holds && other.holds) }
    {
        OneState {
            holds: self.holds & other.holds,
        }
    }

    fn join(self, other: OneState) -> OneState
        ensures { result.holds ≡ (self.holds || other.holds) }
    {
        OneState {
            holds: self.holds | other.holds,
        }
    }

    fn complement(self) -> OneState
        ensures { result.holds ≡ not self.holds }
    {
        OneState { holds: !self.holds }
    }
}
