// What is kept of a listing that was cut off, from a found file read in pieces of any size.
#![tactic(auto)]

pub mod keep;
