// A block's run: from a machine state and the answers to its loads to the state at its end and a trace of its events.
#![tactic(auto)]

pub mod outcome; // outcome.rt: how a run ends, before its first step
pub mod forward; // forward.rt: the run over a block's statements
pub mod run; // run.rt: the public entry
