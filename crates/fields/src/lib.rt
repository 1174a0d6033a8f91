// Parts of a line, and decimals.
#![tactic(auto)]

pub mod part; // part.rt: the parts of a slice between separators
pub mod decimal; // decimal.rt: decimals without leading zeros
