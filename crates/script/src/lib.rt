//! A script: up to 4,096 definitions behind one another, and the calls that write and read them.
#![tactic(auto)]

pub mod calls;
pub mod script;
#[cfg(test)]
mod tests;
