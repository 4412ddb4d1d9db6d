// A quota on the blocks of any store.
#![tactic(auto)]

pub mod quota;
