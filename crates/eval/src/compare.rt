// Comparisons, carries, the borrow and boolean operations: one bit, from two vectors.
ghost use Rattle.std.specs.Prelude.{◌≡◌, length};
ghost use Rattle.bit_vec.specs.Lists.{bits, last_place};
ghost use Rattle.eval.specs.Held.{coded, lowest_of, truth_of};
ghost use Rattle.eval.specs.Eval.{signed_less, compare_b, bool_b};

use crate::one::lowest;
use bit::Bit;
use bit_vec::logic::is_eq;
use bit_vec::moves::set_bool;
use bit_vec::ripple::{Ripple, add_overflow, last_place, sub_overflow};
use pcode::op::{BoolOp, CompareOp};

// The last carry of a sum, the last borrow of a difference.
fn carry(a: &[u64], b: &[u64], op: Ripple) -> Bit
    requires { length a.now ≡ length b.now }
    ensures { result ≡ (last_place op (bits a.now) (bits b.now)).carry }
{
    last_place(a, b, op).carry
}

fn signed_less(a: &[u64], b: &[u64]) -> Bit
    requires { length a.now ≡ length b.now }
    ensures { result ≡ signed_less (bits a.now) (bits b.now) }
{
    let sign = last_place(a, b, Ripple::Sub).digit;
    sign.xor(sub_overflow(a, b))
}

pub fn compare(op: CompareOp, a: &[u64], b: &[u64]) -> Bit
    requires { length a.now ≡ length b.now }
    ensures { result ≡ compare_b op (bits a.now) (bits b.now) }
{
    match op {
        CompareOp::IntEqual => is_eq(a, b),
        CompareOp::IntNotEqual => is_eq(a, b).not(),
        CompareOp::IntLess => carry(a, b, Ripple::Sub),
        CompareOp::IntSignedLess => signed_less(a, b),
        CompareOp::IntLessEqual => carry(a, b, Ripple::Sub).or(is_eq(a, b)),
        CompareOp::IntSignedLessEqual => signed_less(a, b).or(is_eq(a, b)),
        CompareOp::IntCarry => carry(a, b, Ripple::Add),
        CompareOp::IntSignedCarry => add_overflow(a, b),
        CompareOp::IntSignedBorrow => sub_overflow(a, b),
    }
}

pub fn eval_compare(op: CompareOp, a: &[u64], b: &[u64], out: &mut [u64])
    requires { length a.now ≡ length b.now }
    ensures { out.new ≡ truth_of coded (compare_b op (bits a.now) (bits b.now)) (length out.old) }
{
    set_bool(out, compare(op, a, b));
}

// `BoolOp` and bit_vec's `Logic` name the same three; a conversion of one to the other would be this match.
fn bool_of(op: BoolOp, x: Bit, y: Bit) -> Bit
    ensures { result ≡ bool_b op x y }
{
    match op {
        BoolOp::BoolAnd => x.and(y),
        BoolOp::BoolOr => x.or(y),
        BoolOp::BoolXor => x.xor(y),
    }
}

pub fn eval_bool(op: BoolOp, a: &[u64], b: &[u64], out: &mut [u64])
    ensures { out.new ≡ truth_of coded (bool_b op (lowest_of coded a.now) (lowest_of coded b.now)) (length out.old) }
{
    let x = lowest(a);
    let y = lowest(b);
    set_bool(out, bool_of(op, x, y));
}
