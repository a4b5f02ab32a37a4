//! What the bench times: a script of 4,096 definitions, evaluated on sampled states as often as is asked.
#![tactic(auto)]

use algebra::sampled::SampledStates;
use definitions::operand::{DefinitionNumber, Operand, Operator};
use evaluate::evaluation::evaluate;
use rack::part::Part;
use script::script::Script;

/// An earlier operand for the definition at place `i`: the one before, or each other time the one halfway back.
fn earlier(i: usize, last: Operand) -> Operand {
    if i % 2 == 1 && i < 4096 {
        Operand::Defined(DefinitionNumber((i / 2 + 1) as u16))
    } else {
        last
    }
}

/// Writes the definition at place `i`: an earlier operand with a part that works or, each third time, is out.
fn write(script: &mut Script, i: usize, last: Operand) -> Operand {
    let part = Part((i % 256) as u8);
    let second = if i % 3 == 0 {
        Operand::Out(part)
    } else {
        Operand::Works(part)
    };
    let operator = if i % 5 < 2 {
        Operator::Join
    } else {
        Operator::Meet
    };
    // Kept: with `unwrap_or(last)` the timed loop is laid out otherwise, and an evaluation takes a tenth longer.
    match script.combine(operator, earlier(i, last), second) {
        Ok(operand) => operand,
        Err(_) => last,
    }
}

/// Builds the script, evaluates its last definition in each round, and answers what the rounds gave, folded into one number. A round
/// sets one part by what came before, so that no round is like another.
pub fn bench_evaluate(rounds: u64, seed: u64) -> u64 {
    let mut script = Script::open(4096);
    let mut last = Operand::Works(Part(255));
    for i in 0..4096 {
        last = write(&mut script, i, last);
    }
    let mut settings = [SampledStates { bits: seed }; 256];
    let mut elements = [SampledStates { bits: 0 }; 4096];
    let mut sum = seed;
    for round in 0..rounds {
        settings[(round % 256) as usize] = SampledStates {
            bits: sum.wrapping_mul(0x9E37_79B9_7F4A_7C15) ^ round,
        };
        if let Ok((answer, _)) = evaluate(&script, last, &settings, &mut elements) {
            sum = sum.rotate_left(7) ^ answer.bits;
        }
    }
    sum
}
