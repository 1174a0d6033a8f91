// The concrete evaluator: an operation of the run class on numbers of up to 128 bits.
#![tactic(auto)]

pub mod number; // number.rt: masks, signs, counts, shifts at a width
pub mod compare; // compare.rt: comparisons, carries and the borrow
pub mod apply; // apply.rt: one operation, family by family
