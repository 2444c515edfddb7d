// The pieces of a read over introns, each in its turn: placed in the unit and checked against the reference, then written.
#![tactic(auto)]

pub mod check;
pub mod place;
pub mod write;
