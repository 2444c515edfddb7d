// Entry points for benchmarks of the text layer, as a C program can call them: no part of the product.
#![tactic(auto)]

pub mod text;
