// Bit vectors: slices of codes, one number a bit, lowest first.
#![tactic(auto)]

pub mod moves; // moves.rt: filling, copying, extending, setting
pub mod logic; // logic.rt: not, and, or, xor, equality
pub mod ripple; // ripple.rt: sums and differences, with carry, borrow and overflow
pub mod known; // known.rt: what is known of a vector: its constant, its least value, counts
pub mod shift; // shift.rt: shifts and rotates
