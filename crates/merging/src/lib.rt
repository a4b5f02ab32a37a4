//! Merging: the translation that writes ways with a common beginning together, by a trie of the kept ways in the working records.
#![tactic(auto)]

pub mod trie;
