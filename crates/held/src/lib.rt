// Blocks that hold a tree: when they do (specs), and what holds of them.
#![tactic(auto)]

pub mod laws;
