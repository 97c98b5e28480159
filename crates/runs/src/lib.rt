// The runs of changed places between two register files: what a list of writes has to write.
#![tactic(auto)]

pub mod find;
mod fixed;
