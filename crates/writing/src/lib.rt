// Text laid into a lent line: bytes as their digits, whole lines, and decimal numbers.
#![tactic(auto)]

pub mod decimal;
pub mod lay;
