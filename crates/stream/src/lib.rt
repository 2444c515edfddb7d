// Files read through lent buffers, in pieces.
#![tactic(auto)]

pub mod source;
