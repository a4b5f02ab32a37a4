ghost use Rattle.algebra.specs.Models.{upside_down};
ghost use Rattle.algebra.specs.UpsideDown;

use crate::boolean::BooleanAlgebra;

/// An algebra read upside down: the same elements, with meet and join, and bottom and top, in each other's place.
#[derive(Clone, Copy, PartialEq, Eq)]
pub struct Dual<A> {
    pub under: A,
}

impl<A: BooleanAlgebra> BooleanAlgebra for Dual<A> {
    ghost algebra = { upside_down A.BooleanAlgebra.algebra };

    ghost value = { λ d. A.BooleanAlgebra.value d.under };

    ghost lattice = { UpsideDown.lattice A.BooleanAlgebra.algebra A.BooleanAlgebra.lattice };

    ghost complemented = { UpsideDown.complemented A.BooleanAlgebra.algebra A.BooleanAlgebra.complemented };

    fn bottom() -> Dual<A> {
        Dual { under: A::top() }
    }

    fn top() -> Dual<A> {
        Dual { under: A::bottom() }
    }

    fn meet(self, other: Dual<A>) -> Dual<A> {
        Dual {
            under: self.under.join(other.under),
        }
    }

    fn join(self, other: Dual<A>) -> Dual<A> {
        Dual {
            under: self.under.meet(other.under),
        }
    }

    fn complement(self) -> Dual<A> {
        Dual {
            under: self.under.complement(),
        }
    }
}
