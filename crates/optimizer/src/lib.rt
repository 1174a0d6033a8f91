// The public entry points: what each answers and leaves, for every block and every set of marks.
#![tactic(auto)]

pub mod first; // first.rt: the first pass
pub mod second; // second.rt: the second pass
pub mod both; // both.rt: the one after the other
