// The command program's work: lines parsed, calls made, answers written as text.
#![tactic(auto)]

pub mod answers;
pub mod call;
pub mod parse;
pub mod run;
pub mod text;
