//! The worked cases: small tables with what each method answers of them, all in one list and shown by computing. The function computes
//! nothing: its contract is the fact.
#![tactic(auto)]

ghost use Rattle.worked.specs.Cases.{Worked};

use algebra::boolean::BooleanAlgebra;

/// Every worked case comes out as written down.
pub fn worked_cases<A: BooleanAlgebra>() -> bool
    ensures { Worked A.algebra }
{
    true
}
