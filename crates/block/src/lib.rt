// One block of a record: read field by field from the frame, and refused where document 01 says.
#![tactic(auto)]

pub mod aligned;
pub mod checked;
pub mod clips;
pub mod head;
pub mod symbols;
pub mod unaligned;
