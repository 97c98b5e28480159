// The C interface: each function takes what is lent as a pointer and a length, and asks nothing of its bytes. Each
// answers a number, as C has no Result.
#![tactic(auto)]

pub mod pictures;
pub mod plans;
pub mod rows;
pub mod sessions;
pub mod state;
