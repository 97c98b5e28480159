// The records of a session: what stands at a place of a lent session, and the reader that asks it.
#![tactic(auto)]

pub mod kind;
pub mod reader;
pub mod record;
pub mod step;
