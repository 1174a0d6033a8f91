// The text form's reader: bytes to a block with its marks, or refusal 1 or 2.
#![tactic(auto)]

pub mod answer; // answer.rt: what was read so far, or why it is refused
pub mod read; // read.rt: the lines of a file, one record each
