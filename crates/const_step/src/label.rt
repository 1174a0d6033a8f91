// Which labels are kept, and what a label does.
ghost use Rattle.std.specs.Prelude.{◌≡◌, List, ◌++◌, ℕ, ◌+◌, ◌<◌, ◌≤◌, length, take, drop};
ghost use Rattle.const_step.specs.Labels.{target_of, targets_of, has_target, reached_by, branch_of, arrives_of, kept_label, label_of, end_of};

use pcode::block::Stmt;
use pcode::op::Op;
use pcode::var::{Operand, PcodeLabel};
use widen::turn::{Turn, turn_of};
use widen::widen::Made;

// One above the label that a statement branches to; 0 for other statements.
// A number and no Option: `reached` promises its answer for any words, and compares them as they stand.
pub fn target(s: Stmt) -> u64
    ensures { result ≡ target_of s }
{
    match turn_of(s.op) {
        Turn::Jump(l) => 1 + u64::from(l.0),
        Turn::Plain | Turn::Marker | Turn::Label(_) | Turn::Exit | Turn::Hook => 0,
    }
}

// The targets of some statements.
pub fn targets(stmts: &[Stmt], jumps: &mut [u64])
    requires { length stmts.now ≤ length jumps.old }
    ensures { jumps.new ≡ targets_of stmts.now ++ drop (length stmts.now) jumps.old }
{
    for (i, s) in stmts.iter().enumerate() {
        jumps[i] = target(*s);
    }
}

// Whether a target is among them.
fn has(jumps: &[u64], want: u64) -> bool
    ensures { result ≡ has_target jumps.now want }
{
    jumps.contains(&want)
}

// A label is kept if an earlier branch of the result reaches it, or any branch below it.
pub fn reached(below: &[u64], made: &[u64], l: PcodeLabel) -> bool
    ensures { result ≡ reached_by below.now made.now l }
{
    let want = 1 + u64::from(l.0);
    has(made, want) || has(below, want)
}

// A branch that is always taken.
fn branch(l: PcodeLabel) -> Stmt
    ensures { result ≡ branch_of l }
{
    Stmt::new(
        Op::PcodeBranch(l),
        None,
        Operand::Const(1, 1),
        Operand::None,
    )
}

// A skip ends at its own label.
fn arrives(skip: Option<PcodeLabel>, l: PcodeLabel) -> Option<PcodeLabel>
    ensures { result ≡ arrives_of skip l }
{
    if skip == Some(l) { None } else { skip }
}

// A kept label, without operands; a skip to another label becomes a branch ahead of it.
fn kept(skip: Option<PcodeLabel>, l: PcodeLabel) -> Made
    ensures { result ≡ kept_label skip l }
{
    let s = Stmt::new(Op::PcodeLabel(l), None, Operand::None, Operand::None);
    match skip {
        None => Made::one(s),
        Some(target) => Made::two(branch(target), s),
    }
}

// A label: a kept one ends any skip, another vanishes.
pub fn label(skip: Option<PcodeLabel>, l: PcodeLabel, keeps: bool) -> Made
    ensures { result ≡ label_of skip l keeps }
{
    let left = arrives(skip, l);
    if keeps {
        kept(left, l)
    } else {
        Made::nothing(left)
    }
}

// A skip that meets the end.
pub fn end(skip: Option<PcodeLabel>) -> Made
    ensures { result ≡ end_of skip }
{
    match skip {
        None => Made::nothing(None),
        Some(target) => Made::one(branch(target)),
    }
}
