// The shortest list of writes from one register file to another.
#![tactic(auto)]

pub mod plan;
mod write;
