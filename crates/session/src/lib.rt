// A session: its records done on a state, and what they print.
#![tactic(auto)]

pub mod run;
