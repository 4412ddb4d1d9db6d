// Insertion: what the way of a key shows, then the pair put in, and every node on the way examined.
#![tactic(auto)]

pub mod insert;
pub mod root;
pub mod split;
pub mod survey;
