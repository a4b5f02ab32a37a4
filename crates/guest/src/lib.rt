//! Algebras that are declared outside: they are evaluated over as the delivered ones are, with nothing changed elsewhere.
#![tactic(auto)]

pub mod pair;
pub mod report;
#[cfg(test)]
mod tests;
