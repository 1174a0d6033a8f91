// Operations of two operands and an output of one size.
ghost use Rattle.std.specs.Prelude.{◌≡◌, length};
ghost use Rattle.bit_vec.specs.Lists.{bits, codes, logic_b, zip_bits, ripple_bits};
ghost use Rattle.eval.specs.Held.{coded};
ghost use Rattle.eval.specs.Eval.{two_of};

use crate::one::extend;
use crate::product::mul;
use bit_vec::logic::{Logic, bitwise};
use bit_vec::ripple::{Ripple, ripple_in};
use pcode::op::TwoOp;

fn logic(op: Logic, a: &[u64], b: &[u64], out: &mut [u64])
    requires { (length a.now ≡ length out.old) × (length b.now ≡ length out.old) }
    ensures { out.new ≡ codes (zip_bits (logic_b op) (bits a.now) (bits b.now)) }
{
    extend(out, a);
    bitwise(out, b, op);
}

fn sum(op: Ripple, a: &[u64], b: &[u64], out: &mut [u64])
    requires { (length a.now ≡ length out.old) × (length b.now ≡ length out.old) }
    ensures { out.new ≡ codes (ripple_bits op (bits a.now) (bits b.now)) }
{
    extend(out, a);
    ripple_in(out, b, op);
}

pub fn eval_two(op: TwoOp, a: &[u64], b: &[u64], out: &mut [u64])
    requires { (length a.now ≡ length out.old) × (length b.now ≡ length out.old) }
    ensures { out.new ≡ two_of coded op a.now b.now (length out.old) }
{
    match op {
        TwoOp::IntAdd => sum(Ripple::Add, a, b, out),
        TwoOp::IntSub => sum(Ripple::Sub, a, b, out),
        TwoOp::IntXor => logic(Logic::Xor, a, b, out),
        TwoOp::IntOr => logic(Logic::Or, a, b, out),
        TwoOp::IntAnd => logic(Logic::And, a, b, out),
        TwoOp::IntMul => mul(a, b, out),
    }
}
