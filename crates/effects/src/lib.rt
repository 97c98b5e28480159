// What one record of a session does to a state, and the line that it prints.
#![tactic(auto)]

pub mod effect;
pub mod print;
