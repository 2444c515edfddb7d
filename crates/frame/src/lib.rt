// Text into bytes: lines of lower-case hexadecimal, and the fields in them.
#![tactic(auto)]

pub mod bytes;
pub mod field;
pub mod line;
