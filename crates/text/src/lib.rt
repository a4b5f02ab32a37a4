//! Texts: their lines, the digits of a line, and the frame that a line forms.
#![tactic(auto)]

pub mod digits;
pub mod frame;
pub mod line;
pub mod lines;
