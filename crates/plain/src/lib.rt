// The plain sorted list, which an index stands for, and its laws. Nothing here is run.
#![tactic(auto)]

pub mod laws;
pub mod pair;
