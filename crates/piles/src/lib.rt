// Piles of stores: made, used and taken apart again.
#![tactic(auto)]

pub mod caches;
mod fresh;
pub mod one;
pub mod pages;
pub mod quotas;
