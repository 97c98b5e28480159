// Bus transactions: what is refused of a write and of a read, and what an accepted one names.
#![tactic(auto)]

pub mod decode;
pub mod read;
pub mod start;
