//! The laws of combine and of the three methods, over every Boolean algebra. The functions compute nothing: each contract is a law.
#![tactic(auto)]

ghost use contract.Fact.{fact};
ghost use Rattle.algebra.specs.Algebra.{EveryAlgebra};
ghost use Rattle.laws.specs.Laws.{CombineRight, MethodsRight, KeptRight, TranslationRight};
ghost use Rattle.laws.specs.Readings.{ReadingsAgree};

use algebra::boolean::BooleanAlgebra;

/// What one meet or join adds, and what its answer is worth.
pub fn combine_right<A: BooleanAlgebra>() -> bool
    ensures { CombineRight A.algebra }
{
    true
}

/// What each method adds for any ways, and what its answer is worth.
pub fn methods_right<A: BooleanAlgebra>() -> bool
    ensures { MethodsRight A.algebra }
{
    true
}

/// The kept ways are worth what all ways entered are.
pub fn kept_right<A: BooleanAlgebra>() -> bool
    ensures { KeptRight A.algebra }
{
    true
}

/// What a translation adds for the kept ways, and that its answer is worth what all ways entered are.
pub fn translation_right<A: BooleanAlgebra>() -> bool
    ensures { TranslationRight A.algebra }
{
    true
}

/// The same of every Boolean algebra, whether or not a type shows it.
pub fn translation_right_everywhere() -> bool
    ensures* { fact 𝓤 (EveryAlgebra TranslationRight) }
{
    true
}

/// Decomposition may take the ways that hold the part out from all ways, where none of them is contradictory.
pub fn readings_agree() -> bool
    ensures { ReadingsAgree }
{
    true
}
