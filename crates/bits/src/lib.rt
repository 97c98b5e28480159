// Bytes under masks: the merge of an old and a new byte, and of a run of bytes into a lent file.
#![tactic(auto)]

pub mod merge;
