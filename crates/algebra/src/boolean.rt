ghost use Rattle.std.specs.Prelude.{◌≡◌};
ghost use Rattle.algebra.specs.Algebra.{Algebra, Lattice, Complemented};

/// A Boolean algebra by its elements, which are plain and freely copied. Each element has a value, and the laws are of values: every
/// operation answers for all elements, changes nothing and depends on their values alone. Every impl owes the laws.
pub trait BooleanAlgebra: Copy {
    /// The algebra of the values.
    ghost algebra: { Algebra };

    /// The value of an element.
    ghost value: { Self → algebra.Value };

    /// The element that nothing is below.
    fn bottom() -> Self
        ensures { value result ≡ algebra.bottom };

    /// The element that nothing is above.
    fn top() -> Self
        ensures { value result ≡ algebra.top };

    fn meet(self, other: Self) -> Self
        ensures { value result ≡ algebra.meet (value self) (value other) };

    fn join(self, other: Self) -> Self
        ensures { value result ≡ algebra.join (value self) (value other) };

    fn complement(self) -> Self
        ensures { value result ≡ algebra.complement (value self) };

    ghost lattice: { Lattice algebra };

    ghost complemented: { Complemented algebra };
}
