// The tree: definitions and laws, over any kind of key and any shape. Nothing here is run but the marks.
#![tactic(auto)]

pub mod laws;
pub mod mark;
