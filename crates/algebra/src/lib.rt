//! Boolean algebras: what a script is evaluated over.
#![tactic(auto)]

pub mod boolean;
pub mod dual;
pub mod one_state;
pub mod sampled;
