//! What the bench links: the function of `bench_evaluate`, under its name in C.
#![tactic(auto)]

use bench_evaluate::bench_evaluate as evaluated;

/// Builds a script of 4,096 definitions, evaluates its last one in each round, and answers what the rounds gave, folded into one number.
#[unsafe(no_mangle)]
pub extern "C" fn bench_evaluate(rounds: u64, seed: u64) -> u64 {
    evaluated(rounds, seed)
}
