// The ordered index: a key's handle, kept in the blocks of any store.
#![tactic(auto)]

pub mod index;
pub mod laws;
pub mod resume;
