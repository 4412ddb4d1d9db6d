// What a block store is: its calls, what they mean, and the faults that they raise.
#![tactic(auto)]

pub mod blocks;
pub mod fault;
