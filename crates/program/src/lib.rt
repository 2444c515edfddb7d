// What the two programs share beside their listings: their arguments, files by their paths, and lines gathered for standard output.
#![tactic(auto)]

pub mod args;
pub mod buffer;
pub mod sink;
pub mod system;
