// The rows of a statement's variables, looked up once.
ghost use Rattle.std.specs.Prelude.{◌≡◌, ◌≤◌, length};
ghost use Rattle.vars.specs.Vars.{held_ids};
ghost use Rattle.live_tables.specs.Rows.{part_of, is_var, row_in, rows_of, RowsAre, edge_of, is_label};

use pcode::block::Stmt;
use pcode::op::Op;
use pcode::var::{Operand, VarId, VarNode};
use vars::Vars;

// Row 0 for an operand that names no variable: its part has no bytes, so that no set changes there, and the flags go by is_var.
#[derive(Clone, Copy)]
pub struct Rows {
    pub output: usize,
    pub first: usize,
    pub second: usize,
}

// What a statement ends: nothing, a stretch, or an instruction.
#[derive(Clone, Copy)]
pub enum Edge {
    Inside,
    Branch,
    Label,
    Marker,
}

impl Edge {
    pub fn is_label(self) -> bool
        ensures { result ≡ is_label self }
    {
        matches!(self, Edge::Label)
    }
}

pub fn edge_of(op: Op) -> Edge
    ensures { result ≡ edge_of op }
{
    match op {
        Op::InstructionMarker => Edge::Marker,
        Op::PcodeLabel(_) => Edge::Label,
        Op::PcodeBranch(_) => Edge::Branch,
        Op::Branch(_) => Edge::Branch,
        _ => Edge::Inside,
    }
}

// The part of a variable that an operand names; no bytes where it names none.
pub fn part(a: Operand) -> VarNode
    ensures { result ≡ part_of a }
{
    match a {
        Operand::Var(v) => v,
        _ => VarNode {
            id: VarId(0),
            offset: 0,
            size: 0,
        },
    }
}

pub fn is_var(a: Operand) -> bool
    ensures { result ≡ is_var a }
{
    matches!(a, Operand::Var(_))
}

// The row of an operand's variable.
fn row_in(vars: &Vars, a: Operand) -> usize
    ensures { result ≡ row_in (held_ids vars.now) a }
{
    match a {
        Operand::Var(v) => vars.row(v.id),
        _ => 0,
    }
}

fn stmt_rows(vars: &Vars, s: Stmt) -> Rows
    ensures { result ≡ rows_of (held_ids vars.now) s }
{
    Rows {
        output: row_in(vars, Operand::from(s.output)),
        first: row_in(vars, s.first),
        second: row_in(vars, s.second),
    }
}

// The rows of each statement.
pub fn block_rows(stmts: &[Stmt], vars: &Vars) -> [Rows; 129]
    requires { length stmts.now ≤ 129 }
    ensures { RowsAre (held_ids vars.now) stmts.now result }
{
    let none = Rows {
        output: 0,
        first: 0,
        second: 0,
    };
    let mut out = [none; 129];
    for (i, s) in stmts.iter().enumerate() {
        out[i] = stmt_rows(vars, *s);
    }
    out
}
