// Deletion: the pair taken out, every node on the way examined, and one that became too light merged.
#![tactic(auto)]

pub mod delete;
pub mod merge;
