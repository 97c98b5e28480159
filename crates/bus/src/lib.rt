// The state of the chip, and bus writes and reads on it.
#![tactic(auto)]

pub mod arrays;
pub mod state;
