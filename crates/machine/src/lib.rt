// What a block does: the run class, values of operands, and a statement without side effects.
#![tactic(auto)]

pub mod class; // class.rt: the run class, and refusal 16
pub mod values; // values.rt: what a statement reads and writes
pub mod plain; // plain.rt: a statement without side effects
