// Where a listing goes on: what its first and last kept line say, and the record lines that are passed over.
#![tactic(auto)]

pub mod last;
pub mod pass;
pub mod place;
