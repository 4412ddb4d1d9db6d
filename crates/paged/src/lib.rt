// A block store in lent memory, whose blocks lie scattered over frames.
#![tactic(auto)]

mod frames;
pub mod paged;
