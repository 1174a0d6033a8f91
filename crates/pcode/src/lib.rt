// The vocabulary of blocks: ids, operands, operations, statements, marks and refusals.
#![tactic(auto)]

pub mod var; // var.rt: the ids, parts of variables, operands and outputs
pub mod op; // op.rt: the operations, by families, and 01's rules for each
pub mod name; // name.rt: the operations' names in the text form
pub mod code; // code.rt: their codes, and the operation with a code and a number
pub mod block; // block.rt: statements, blocks, marks and limits
pub mod refusal; // refusal.rt: why a block is refused, and where
