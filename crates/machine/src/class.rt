// The run class, and refusal 16: the first statement that no run gets past.
ghost use Rattle.std.specs.Prelude.{◌≡◌};
ghost use Rattle.machine.specs.Class.{in_class, backward, outside, first_outside, own_class};

use checks::label::has_label;
use pcode::block::Stmt;
use pcode::op::Op;

// Which operations a run takes besides 01's own: later requests add rotates and divisions.
#[derive(Clone, Copy)]
pub struct Class {
    pub rotates: bool,
    pub divisions: bool,
}

impl Class {
    // 01's run class.
    pub fn own() -> Class
        ensures { result ≡ own_class }
    {
        Class {
            rotates: false,
            divisions: false,
        }
    }

    // Whether the operation is in the class.
    pub fn has(self, op: Op) -> bool
        ensures { result ≡ in_class self op }
    {
        match op {
            Op::Trap(_) | Op::Call(_, _) | Op::Select(_) | Op::Opaque(_) | Op::Float(_) => false,
            Op::Divide(_) => self.divisions,
            Op::Rotate(_) => self.rotates,
            Op::InstructionMarker
            | Op::PcodeLabel(_)
            | Op::PcodeBranch(_)
            | Op::Branch(_)
            | Op::Load(_)
            | Op::Store(_)
            | Op::Subpiece(_)
            | Op::One(_)
            | Op::Two(_)
            | Op::Shift(_)
            | Op::Compare(_)
            | Op::Bool(_) => true,
        }
    }
}

// Whether an operation branches to a label that stands above it.
fn is_backward(above: &[Stmt], op: Op) -> bool
    ensures { result ≡ backward above.now op }
{
    match op {
        Op::PcodeBranch(l) => has_label(above, l),
        _ => false,
    }
}

// Whether an operation is outside the class or branches to a label above it.
fn is_outside(class: Class, above: &[Stmt], op: Op) -> bool
    ensures { result ≡ outside class above.now op }
{
    !class.has(op) || is_backward(above, op)
}

// The place of the first such statement; how many statements there are where there is none.
pub fn first_outside(class: Class, stmts: &[Stmt]) -> usize
    ensures { result ≡ first_outside class stmts.now 0 stmts.now }
{
    for (i, s) in stmts.iter().enumerate() {
        if is_outside(class, &stmts[..i], s.op) {
            return i;
        }
    }
    stmts.len()
}
