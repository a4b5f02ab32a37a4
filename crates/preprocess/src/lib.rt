//! From a table's text to the bytes of its delivery, or of the line that tells its first refusal.
#![tactic(auto)]

pub mod answer;
