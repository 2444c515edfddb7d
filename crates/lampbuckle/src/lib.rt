// What C calls: numbers, and slices that the caller lends. A negative answer is minus a refusal number, and after it every lent slice is as it was.
#![tactic(auto)]

mod answer;
pub mod call;
pub mod lines;
mod numbers;
pub mod resume;
pub mod write;
