// Shifts and rotates: a value and an amount.
ghost use Rattle.std.specs.Prelude.{◌≡◌, ◌≤◌, length};
ghost use Rattle.eval.specs.Held.{coded};
ghost use Rattle.eval.specs.Eval.{shift_bits, turn_of, rotate_of};

use crate::EvalError;
use bit::Bit;
use bit_vec::known::get_const;
use bit_vec::moves::fill;
use bit_vec::shift::{rotate_left, rotate_right, shift_left, shift_right, shift_right_signed};
use pcode::op::{RotateOp, ShiftOp};

fn shift_right_zero(a: &[u64], b: &[u64], out: &mut [u64])
    requires { length a.now ≡ length out.old }
    ensures { out.new ≡ shift_bits coded ShiftOp.IntRight a.now b.now }
{
    let zero = Bit::Zero.encode();
    shift_right(out, a, b, zero);
}

pub fn eval_shift(op: ShiftOp, a: &[u64], b: &[u64], out: &mut [u64])
    requires { length a.now ≡ length out.old }
    ensures { out.new ≡ shift_bits coded op a.now b.now }
{
    match op {
        ShiftOp::IntLeft => shift_left(out, a, b),
        ShiftOp::IntRight => shift_right_zero(a, b, out),
        ShiftOp::IntSignedRight => shift_right_signed(out, a, b),
    }
}

// A rotate by a known amount that is not above the width.
fn turn(op: RotateOp, a: &[u64], s: usize, out: &mut [u64])
    requires { (length a.now ≡ length out.old) × (s ≤ length out.old) }
    ensures { out.new ≡ turn_of op s a.now }
{
    match op {
        RotateOp::IntRotateLeft => rotate_left(out, a, s),
        RotateOp::IntRotateRight => rotate_right(out, a, s),
    }
}

pub fn eval_rotate(op: RotateOp, a: &[u64], b: &[u64], out: &mut [u64]) -> Result<(), EvalError>
    requires { length a.now ≡ length out.old }
    ensures { record { answer = result; cells = out.new } ≡ rotate_of coded op a.now b.now out.old }
{
    match get_const(b) {
        Some(n) => {
            let s = n as usize;
            if a.len() < s {
                return Err(EvalError::RotateTooFar);
            }
            turn(op, a, s, out);
        }
        None => fill(out, Bit::Unknown),
    }
    Ok(())
}
