//! The parts of a rack, the literals and ways over them, the digits of a text, and the refusals that every layer tells.
#![tactic(auto)]

pub mod find;
pub mod hex;
pub mod part;
pub mod rank;
pub mod refusal;
pub mod way;
