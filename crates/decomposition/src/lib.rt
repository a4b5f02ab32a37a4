//! Decomposition: the definitions of a list of ways, by the part that comes first in it.
#![tactic(auto)]

pub mod split;
