//! Deliveries: a script's definitions up to an operand, line by line, into a buffer that the caller lends.
#![tactic(auto)]

pub mod calls;
pub mod delivery;
pub mod line;
