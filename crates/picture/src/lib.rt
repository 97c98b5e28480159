// A picture written into a lent register file.
#![tactic(auto)]

pub mod write;
