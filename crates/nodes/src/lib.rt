// A node as words in a block of any store: word 0 its level, word 1 its count n, then 80 weights, 80 keys
// and 80 children or handles, of which the first n count.
//
// Nothing here knows what a tree is: entries need not ascend, and a child is only a word. Any words at all
// get an answer; a count above 80 is answered with 'damaged'.
#![tactic(auto)]

pub mod carry;
pub mod edit;
pub mod entry;
pub mod header;
pub mod layout;
pub mod node;
pub mod read;
pub mod search;
