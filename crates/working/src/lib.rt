//! Working records: what a translation keeps of its ways while it writes, the kept ways of a table in them, and what every method of
//! writing them has in common.
#![tactic(auto)]

pub mod gather;
pub mod record;
pub mod rule;
