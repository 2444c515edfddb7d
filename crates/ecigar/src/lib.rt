// The E-CIGAR of a segment: its edits checked, and the text of Tables 92, 93 and 94 laid as digits.
#![tactic(auto)]

pub mod check;
pub mod clip;
pub mod splice;
pub mod text;
pub mod walk;
