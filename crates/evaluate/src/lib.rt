//! Evaluation: what an operand of a script is worth over any Boolean algebra, at settings of the parts.
#![tactic(auto)]

pub mod evaluation;
mod settings;
#[cfg(test)]
mod tests;
