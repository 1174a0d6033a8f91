// Tables with a set for each of the block's variables, and one step of the walk over them.
#![tactic(auto)]

pub mod rows; // rows.rt: the rows of a statement's variables, looked up once
pub mod tables; // tables.rt: tables with a set or a flag for each variable
pub mod step; // step.rt: one statement of the walk
