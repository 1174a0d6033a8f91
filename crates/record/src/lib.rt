// One record of the text form: a mark, a statement, or neither.
#![tactic(auto)]

pub mod name; // name.rt: operations by their names
pub mod operand; // operand.rt: ids, operands and outputs
pub mod record; // record.rt: marks and statements
