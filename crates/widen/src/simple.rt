// What a statement comes to, and the two kinds of branches.
ghost use Rattle.std.specs.Prelude.{◌≡◌};
ghost use Rattle.widen.specs.Simple.{jump_of, exit_of};

use pcode::block::Stmt;
use pcode::var::{Operand, PcodeLabel, VarNode};

// What a statement comes to.
#[derive(Clone, Copy)]
pub enum Simple {
    Dropped,
    // A branch that is always taken.
    Skips(PcodeLabel),
    // A known value for an output.
    Copies(VarNode, Operand),
    // The statement with its operands replaced.
    Stays(Stmt),
}

// An internal branch: dropped with known 0, skipping with known 1.
pub fn jump(c: Option<u64>, label: PcodeLabel, s: Stmt) -> Simple
    ensures { result ≡ jump_of c label s }
{
    match c {
        Some(0) => Simple::Dropped,
        Some(1) => Simple::Skips(label),
        _ => Simple::Stays(s),
    }
}

// An exit: dropped with known 0.
pub fn exit(c: Option<u64>, s: Stmt) -> Simple
    ensures { result ≡ exit_of c s }
{
    match c {
        Some(0) => Simple::Dropped,
        _ => Simple::Stays(s),
    }
}
