// Key kinds: an order and a packing into words, with the laws that search and tree rest on; the search.
#![tactic(auto)]

pub mod checkpoint;
pub mod document;
#[cfg(test)]
mod edges;
pub mod key;
pub mod kinds;
pub mod search;
mod shown;
pub mod stamp;
