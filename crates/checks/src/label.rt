// Refusal 6: a label stands a second time, or a branch names one that is not in the block.
ghost use Rattle.std.specs.Prelude.{◌≡◌, ◌≤◌, length, take};
ghost use Rattle.checks.specs.Labels.{label_of, is_label, has_label, good_label, labels_from};

use pcode::block::Stmt;
use pcode::op::Op;
use pcode::refusal::Refusal;
use pcode::var::PcodeLabel;

// What an operation has to do with a label: it stands there, or is named by a branch.
#[derive(Clone, Copy)]
pub enum LabelUse {
    None,
    Stands(PcodeLabel),
    Named(PcodeLabel),
}

pub fn label_of(op: Op) -> LabelUse
    ensures { result ≡ label_of op }
{
    match op {
        Op::Trap(_) => LabelUse::None,
        Op::InstructionMarker => LabelUse::None,
        Op::PcodeLabel(l) => LabelUse::Stands(l),
        Op::PcodeBranch(l) => LabelUse::Named(l),
        Op::Branch(_) => LabelUse::None,
        Op::Load(_) => LabelUse::None,
        Op::Store(_) => LabelUse::None,
        Op::Call(_, _) => LabelUse::None,
        Op::Select(_) => LabelUse::None,
        Op::Subpiece(_) => LabelUse::None,
        Op::Opaque(_) => LabelUse::None,
        Op::Float(_) => LabelUse::None,
        Op::One(_) => LabelUse::None,
        Op::Two(_) => LabelUse::None,
        Op::Divide(_) => LabelUse::None,
        Op::Shift(_) => LabelUse::None,
        Op::Rotate(_) => LabelUse::None,
        Op::Compare(_) => LabelUse::None,
        Op::Bool(_) => LabelUse::None,
    }
}

// Whether an operation is that label.
pub fn is_label(op: Op, l: PcodeLabel) -> bool
    ensures { result ≡ is_label op l }
{
    match label_of(op) {
        LabelUse::None => false,
        LabelUse::Stands(m) => m == l,
        LabelUse::Named(_) => false,
    }
}

// Whether a label stands among the statements.
pub fn has_label(stmts: &[Stmt], l: PcodeLabel) -> bool
    ensures { result ≡ has_label stmts.now l }
{
    for s in stmts {
        if is_label(s.op, l) {
            return true;
        }
    }
    false
}

// Statement `i`: a label that did not stand above, a branch to one that stands anywhere.
fn good_label(stmts: &[Stmt], i: usize, op: Op) -> bool
    requires { i ≤ length stmts.now }
    ensures { result ≡ good_label stmts.now (take i stmts.now) op }
{
    match label_of(op) {
        LabelUse::None => true,
        LabelUse::Stands(l) => !has_label(&stmts[..i], l),
        LabelUse::Named(l) => has_label(stmts, l),
    }
}

// The labels and branches of the statements.
pub fn labels(stmts: &[Stmt]) -> Result<(), Refusal>
    ensures { result ≡ labels_from stmts.now 0 stmts.now }
{
    for (i, s) in stmts.iter().enumerate() {
        if !good_label(stmts, i, s.op) {
            return Err(Refusal::BadLabel(i));
        }
    }
    Ok(())
}
