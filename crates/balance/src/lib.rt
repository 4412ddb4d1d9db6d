// What insertion, deletion and queries share: how much a node may weigh, the way down, and where a node is cut.
//
// It rests on nodes alone. Any words at all get an answer; what can't be a tree's is answered with 'damaged'.
#![tactic(auto)]

pub mod cut;
pub mod down;
pub mod limits;
pub mod marks;
pub mod update;
pub mod way;
