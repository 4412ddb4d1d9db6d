// Queries: they read blocks along the way of a key, and write none.
#![tactic(auto)]

pub mod find;
pub mod rank;
pub mod report;
