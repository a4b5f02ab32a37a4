//! Tables: opened by a start line, filled way by way, closed by an end line; and which of its ways are kept.
#![tactic(auto)]

pub mod calls;
pub mod kept;
pub mod read;
pub mod table;
#[cfg(test)]
mod tests;
