// A wanted picture: what is asked of it, and the numbers that it needs in the chip's fields. No file and no
// check here: the crates above have them.
#![tactic(auto)]

pub mod request;
