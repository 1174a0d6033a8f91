// The second pass: dead store elimination.
#![tactic(auto)]

mod live_tmps; // live_tmps.rt: the variables that outlive their stretch
mod detector; // detector.rt: which statements are dead
pub mod eliminate; // eliminate.rt: the block without them
