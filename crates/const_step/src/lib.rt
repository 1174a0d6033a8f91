// One statement of the first pass's walk.
#![tactic(auto)]

pub mod label; // label.rt: which labels are kept, and what a label does
pub mod step; // step.rt: a statement, by the rule that it falls under
