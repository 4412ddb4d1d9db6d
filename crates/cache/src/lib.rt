// A write-back cache over any store.
#![tactic(auto)]

pub mod cached;
pub mod line;
mod moves;
pub mod table;
