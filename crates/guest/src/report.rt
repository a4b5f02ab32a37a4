ghost use Rattle.algebra.specs.Models.{one_state};
ghost use Rattle.algebra.specs.Algebra.{Complemented};
ghost use Rattle.guest.specs.declared.report.Report.{Report};
ghost use Rattle.guest.specs.Guests.{certain, three_valued};
ghost use Rattle.std.proofs.Common.{rules};

use algebra::boolean::BooleanAlgebra;

/// What is reported of a part, the lowest first. Its value is whether it is certain to be up, so that unknown and out are two elements of one value.
#[derive(Clone, Copy, PartialEq, Eq, PartialOrd, Ord)]
pub enum Report {
    Out,
    Unknown,
    Up,
}

impl BooleanAlgebra for Report {
    ghost algebra = { one_state };

    ghost value = { certain };

    ghost lattice = { Prim.search rules };

    ghost complemented = { Prim.search rules };

    fn bottom() -> Report {
        Report::Out
    }

    fn top() -> Report {
        Report::Up
    }

    fn meet(self, other: Report) -> Report {
        self.min(other)
    }

    fn join(self, other: Report) -> Report {
        self.max(other)
    }

    fn complement(self) -> Report {
        match self {
            Report::Up => Report::Out,
            Report::Unknown => Report::Up,
            Report::Out => Report::Up,
        }
    }
}

/// Three values, out below unknown below up, are no Boolean algebra, whatever is offered as the complement.
pub fn no_three_values()
    ensures { (n : Report → Report) → Complemented (three_valued n) → ⊥ }
{}
