// The checks: refusals 3 to 7, and 2 for blocks that callers make.
#![tactic(auto)]

pub mod stmt; // stmt.rt: 3, 4, 5: one statement's variables, operands and sizes
pub mod label; // label.rt: 6: labels
pub mod check; // check.rt: all of them, in 01's order
