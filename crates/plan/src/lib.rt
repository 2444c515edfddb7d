// The check pass of a record call: what the caller lends, then what the record line's frame says, all of it known before a byte is written.
#![tactic(auto)]

pub mod lent;
pub mod read;
pub mod segments;
