// The front of the two files, and the listing's first line, which it decides.
#![tactic(auto)]

pub mod files;
pub mod first;
