// Statements, blocks, marks, and the limits of the two passes.
ghost use Rattle.std.specs.Prelude.{◌≡◌, Bool, true, false, ℕ, ◌≤◌, ◌<◌, length, take};
ghost use Rattle.pcode.specs.Block.{stmt_of, blank_stmt, blank_stmts, empty_block, pushed, held, mark_ids, has_id, marked, lasting, no_marks};

use crate::op::{Op, TrapOp};
use crate::var::{Operand, Output, VarId};

// One statement: `output = op(first, second)`.
#[derive(Clone, Copy)]
pub struct Stmt {
    pub op: Op,
    pub output: Output,
    pub first: Operand,
    pub second: Operand,
}

impl Stmt {
    pub fn new(op: Op, output: Output, first: Operand, second: Operand) -> Stmt
        ensures { result ≡ stmt_of op output first second }
    {
        Stmt {
            op,
            output,
            first,
            second,
        }
    }

    // What stands past a block's last statement.
    pub fn blank() -> Stmt
        ensures { result ≡ blank_stmt }
    {
        Stmt {
            op: Op::Trap(TrapOp::Invalid),
            output: None,
            first: Operand::None,
            second: Operand::None,
        }
    }
}

// A sequence of statements: the first `count` of `stmts`, which has room for the largest result.
#[derive(Clone, Copy)]
pub struct Block {
    pub stmts: [Stmt; 129],
    pub count: usize,
}

impl Block {
    #[tactic(auto, unfolding(crate::specs::Block::blank_stmts))]
    pub fn new() -> Block
        ensures { result ≡ empty_block }
    {
        Block {
            stmts: [Stmt::blank(); 129],
            count: 0,
        }
    }

    // The statements that it holds.
    pub fn held(&self) -> &[Stmt]
        ensures { result.now ≡ held self.now }
    {
        let n = self.count;
        if n < 129 {
            &self.stmts[..n]
        } else {
            &self.stmts
        }
    }

    // One statement more; a full block stays.
    pub fn add(&mut self, s: Stmt)
        ensures { self.new ≡ pushed self.old s }
    {
        let at = self.count;
        if at < 129 {
            self.stmts[at] = s;
            self.count = at + 1;
        }
    }

    // The block with one statement more; a full one stays.
    pub fn push(self, s: Stmt) -> Block
        ensures { result ≡ pushed self s }
    {
        let mut out = self;
        out.add(s);
        out
    }
}

// The ids marked temporary: the first `count` of `ids`.
#[derive(Clone, Copy)]
pub struct Marks {
    pub ids: [VarId; 16],
    pub count: usize,
}

// Whether an id stands in a list.
fn has_id(ids: &[VarId], id: VarId) -> bool
    ensures { result ≡ has_id ids.now id }
{
    ids.contains(&id)
}

impl Marks {
    pub fn none() -> Marks
        ensures { result ≡ no_marks }
    {
        Marks {
            ids: [VarId(0); 16],
            count: 0,
        }
    }

    // The ids themselves.
    pub fn held(&self) -> &[VarId]
        ensures { result.now ≡ mark_ids self.now }
    {
        let n = self.count;
        if n < 16 { &self.ids[..n] } else { &self.ids }
    }

    pub fn has(self, id: VarId) -> bool
        ensures { result ≡ marked self id }
    {
        has_id(self.held(), id)
    }

    // A variable is lasting if its id is above 0 and not marked temporary; else it is a temporary.
    pub fn lasting(self, id: VarId) -> bool
        ensures { result ≡ lasting self id }
    {
        VarId(0) < id && !self.has(id)
    }
}

// How many statements and distinct variables a pass takes.
#[derive(Clone, Copy)]
pub struct Limits {
    pub stmts: usize,
    pub vars: usize,
}

impl Limits {
    pub const FIRST: Limits = Limits {
        stmts: 64,
        vars: 48,
    };

    pub const SECOND: Limits = Limits {
        stmts: 129,
        vars: 112,
    };
}
