// Lists of bursts: what they do to a file, what they cost on the bus, and which is the shortest.
// This crate has definitions and theorems, over any bit map, and no code.
#![tactic(auto)]
