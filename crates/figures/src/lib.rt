// The bench figures of document 01 that are proved: one table, and one statement about it.
// This crate has definitions and a theorem, and no code.
#![tactic(auto)]
