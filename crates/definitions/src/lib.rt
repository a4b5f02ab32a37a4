//! Definitions: operands, the meet or join of two of them, and the rules by which one more is written behind others.
#![tactic(auto)]

pub mod combine;
pub mod draft;
pub mod operand;
