// Bit fields of a lent register file, by place, position and width. Leaves for other crates: each asks that
// the pieces lie in the file.
#![tactic(auto)]

pub mod field;
