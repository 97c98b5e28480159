// The SAA7102 and SAA7103: the bit map of the register file, and the places of the picture's fields.
#![tactic(auto)]

pub mod file;
pub mod map;
