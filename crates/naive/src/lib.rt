//! The naive method: the join of the ways, each the meet of its literals, written as it stands.
#![tactic(auto)]

pub mod plain;
