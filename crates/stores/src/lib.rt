// Block stores in plain memory.
#![tactic(auto)]

mod grants;
pub mod layout;
pub mod lent;
pub mod runs;
pub mod table;
