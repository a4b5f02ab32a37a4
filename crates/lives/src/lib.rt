//! Every life of a script: whatever calls are made in whatever order, what was answered stays right. `evaluate` here is the one of
//! evaluate, under the promise of every life over its algebra.
#![tactic(auto)]

ghost use contract.Fact.{fact};
ghost use Rattle.script.specs.Script.{definitions_of};
ghost use Rattle.algebra.specs.Algebra.{EveryAlgebra};
ghost use Rattle.evaluate.specs.Evaluation.{Evaluation};
ghost use Rattle.lives.specs.Promise.{EveryLife};
ghost use Rattle.lives.specs.Example.{SomeLife};

use algebra::boolean::BooleanAlgebra;
use definitions::operand::Operand;
use evaluate::evaluation::evaluate as evaluate_operand;
use rack::refusal::Refusal;
use script::script::Script;

/// What an operand is worth by a script at the settings, one a part, and the number of meets and joins run. Refuses an operand that the
/// script does not know (11), then settings that are not 256 (12), then too few elements (13). Over the algebra of the elements every
/// life of a script keeps its promise: what a translation answered is worth its table, now and later.
pub fn evaluate<A: BooleanAlgebra>(
    script: &Script,
    operand: Operand,
    settings: &[A],
    elements: &mut [A],
) -> Result<(A, usize), Refusal>
    ensures answer { Evaluation A.algebra A.value (definitions_of script.now) operand settings.now elements.old elements.new result }
    ensures life { EveryLife A.algebra }
{
    evaluate_operand(script, operand, settings, elements)
}

/// Every life keeps its promise over every Boolean algebra, whether or not a type shows it. Computes nothing.
pub fn every_life_everywhere() -> bool
    ensures* { fact 𝓤 (EveryAlgebra EveryLife) }
{
    true
}

/// There are lives: one is spelled out, with calls accepted and a call refused. Computes nothing.
pub fn some_life() -> bool
    ensures { SomeLife }
{
    true
}
