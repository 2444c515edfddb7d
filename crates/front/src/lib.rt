// The lines in front of the records: unit, pair and reference lines.
#![tactic(auto)]

pub mod pair_line;
pub mod reference_line;
pub mod unit_line;
