// What a statement comes to, and the statements that it gives to the result.
#![tactic(auto)]

pub mod turn; // turn.rt: which of 01's rules an operation falls under
pub mod simple; // simple.rt: what a statement comes to
pub mod widen; // widen.rt: the statements that go into the result
