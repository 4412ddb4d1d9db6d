// Runs of words copied between blocks of any store, and what work of several store calls promises.
#![tactic(auto)]

pub mod copy;
