//! Translation: a table's kept ways become definitions by one of three methods, and a translation that is broken off leaves nothing.
#![tactic(auto)]

pub mod translate;
