// A state of the chip in lent bytes: its operations, done where the bytes lie.
#![tactic(auto)]

pub mod lent;
