// The lines that the bench reads and writes.
#![tactic(auto)]

pub mod input;
pub mod output;
