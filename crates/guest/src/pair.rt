ghost use Rattle.guest.specs.Guests.{side_by_side};
ghost use Rattle.guest.specs.Sides;

use algebra::boolean::BooleanAlgebra;

/// An element of one algebra beside an element of another.
#[derive(Clone, Copy)]
pub struct Pair<K, L> {
    pub first: K,
    pub second: L,
}

impl<K: BooleanAlgebra, L: BooleanAlgebra> BooleanAlgebra for Pair<K, L> {
    ghost algebra = { side_by_side K.BooleanAlgebra.algebra L.BooleanAlgebra.algebra };

    ghost value = { λ p. (K.BooleanAlgebra.value p.first, L.BooleanAlgebra.value p.second) };

    ghost lattice = { Sides.lattice K.BooleanAlgebra.algebra L.BooleanAlgebra.algebra K.BooleanAlgebra.lattice L.BooleanAlgebra.lattice };

    ghost complemented = { Sides.complemented K.BooleanAlgebra.algebra L.BooleanAlgebra.algebra K.BooleanAlgebra.complemented L.BooleanAlgebra.complemented };

    fn bottom() -> Pair<K, L> {
        Pair {
            first: K::bottom(),
            second: L::bottom(),
        }
    }

    fn top() -> Pair<K, L> {
        Pair {
            first: K::top(),
            second: L::top(),
        }
    }

    fn meet(self, other: Pair<K, L>) -> Pair<K, L> {
        Pair {
            first: self.first.meet(other.first),
            second: self.second.meet(other.second),
        }
    }

    fn join(self, other: Pair<K, L>) -> Pair<K, L> {
        Pair {
            first: self.first.join(other.first),
            second: self.second.join(other.second),
        }
    }

    fn complement(self) -> Pair<K, L> {
        Pair {
            first: self.first.complement(),
            second: self.second.complement(),
        }
    }
}
