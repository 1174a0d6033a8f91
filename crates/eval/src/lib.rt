// The evaluator: what an operation gives on symbolic bits, by 01's symbolic rules.
#![tactic(auto)]

ghost use Rattle.std.specs.Prelude.{◌≡◌, true, length};
ghost use Rattle.pcode.specs.Rules.{size_rule};
ghost use Rattle.eval.specs.Held.{coded};
ghost use Rattle.eval.specs.Sizes.{fits_bits};
ghost use Rattle.eval.specs.Eval.{outcome_of, family_of, call_of};

pub mod sizes; // sizes.rt: 01's size rules, on counts of bits
pub mod one; // one.rt: operations of one operand
pub mod product; // product.rt: multiplication
pub mod two; // two.rt: operations of two operands and an output of one size
pub mod amount; // amount.rt: shifts and rotates
pub mod compare; // compare.rt: comparisons, carries, the borrow and boolean operations
pub mod name; // name.rt: unknown bits become expressions
pub mod operand; // operand.rt: where an operand's bits stand

use crate::amount::{eval_rotate, eval_shift};
use crate::compare::{eval_bool, eval_compare};
use crate::one::{eval_one, subpiece};
use crate::sizes::fits;
use crate::two::eval_two;
use bit::Bit;
use bit_vec::moves::fill;
use pcode::op::{CallOp, Op};

#[derive(Clone, Copy, PartialEq, Eq)]
pub enum EvalError {
    // An evaluated rotate has a known amount above the width in bits: 01's refusal 8.
    RotateTooFar,
    // The slices' lengths break the operation's size rule.
    BadSizes,
}

// Operations that reach outside the block: unknown, or the output left alone.
fn eval_call(op: CallOp, out: &mut [u64])
    ensures { out.new ≡ call_of coded op out.old }
{
    match op {
        CallOp::Arg | CallOp::TracerStore => {}
        CallOp::PcodeOp | CallOp::Hook | CallOp::HookIf | CallOp::TracerLoad => {
            fill(out, Bit::Unknown)
        }
    }
}

// An operation other than a rotate, whose sizes are right.
fn eval_family(op: Op, a: &[u64], b: &[u64], out: &mut [u64]) -> Result<(), EvalError>
    requires { fits_bits (size_rule op) (length a.now) (length b.now) (length out.old) ≡ true }
    ensures { record { answer = result; cells = out.new } ≡ family_of coded op a.now b.now out.old }
{
    match op {
        Op::Trap(_) | Op::InstructionMarker | Op::Store(_) => {}
        Op::PcodeLabel(_) | Op::PcodeBranch(_) | Op::Branch(_) => {}
        Op::Load(_) | Op::Select(_) | Op::Opaque(_) | Op::Float(_) | Op::Divide(_) => {
            fill(out, Bit::Unknown)
        }
        Op::Call(k, _) => eval_call(k, out),
        Op::Subpiece(k) => subpiece(k, a, out),
        Op::One(k) => eval_one(k, a, out),
        Op::Two(k) => eval_two(k, a, b, out),
        Op::Shift(k) => eval_shift(k, a, b, out),
        Op::Rotate(k) => return eval_rotate(k, a, b, out),
        Op::Compare(k) => eval_compare(k, a, b, out),
        Op::Bool(k) => eval_bool(k, a, b, out),
    }
    Ok(())
}

// What `op` gives on the bits of `a` and `b`, into `out`. A refusal, and an empty `out`, leave everything as it was.
pub fn eval(op: Op, a: &[u64], b: &[u64], out: &mut [u64]) -> Result<(), EvalError>
    ensures { record { answer = result; cells = out.new } ≡ outcome_of coded op a.now b.now out.old }
{
    if out.is_empty() {
        return Ok(());
    }
    if !fits(op.size_rule(), a.len(), b.len(), out.len()) {
        return Err(EvalError::BadSizes);
    }
    eval_family(op, a, b, out)
}
