// A listing and its last line. What a listing is, and what resuming adds to one that was cut off, is in specs/.
#![tactic(auto)]

pub mod close;
