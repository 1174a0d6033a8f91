// The text form's printer: a block or a refusal to bytes in a lent buffer.
#![tactic(auto)]

mod put; // put.rt: bytes, names, decimals and operands
pub mod print; // print.rt: records, blocks and refusals
