// Operations of one operand.
ghost use Rattle.std.specs.Prelude.{◌≡◌, ◌*◌, ◌≤◌, true, length, replicate};
ghost use Rattle.pcode.specs.Rules.{sizes_one};
ghost use Rattle.eval.specs.Held.{coded, lowest_of};
ghost use Rattle.eval.specs.Sizes.{fits_bits};
ghost use Rattle.eval.specs.Eval.{number_or, subpiece_of, one_of};

use bit::Bit;
use bit_vec::known::{count_leading_zeros, count_ones};
use bit_vec::logic::not;
use bit_vec::moves::{at, copy_any, fill, set_bool, set_const, sign};
use bit_vec::ripple::{Ripple, ripple_in};
use pcode::op::OneOp;

// The lowest bit; zero where there is none.
pub fn lowest(s: &[u64]) -> Bit
    ensures { result ≡ lowest_of coded s.now }
{
    let zero = Bit::Zero.encode();
    Bit::decode(at(s, 0, zero))
}

// A copy, cut or extended with zeros.
pub fn extend(out: &mut [u64], a: &[u64])
    ensures { out.new ≡ subpiece_of coded 0 a.now (length out.old) }
{
    let zero = Bit::Zero.encode();
    copy_any(out, a, zero);
}

// The bits from byte k on, cut or extended with zeros.
pub fn subpiece(k: u16, a: &[u64], out: &mut [u64])
    requires { 8 * k ≤ length a.now }
    ensures { out.new ≡ subpiece_of coded k a.now (length out.old) }
{
    let from = 8 * (k as usize);
    extend(out, &a[from..]);
}

// A count, cut to the output, or unknown.
fn set_count(out: &mut [u64], count: Option<u64>)
    ensures { out.new ≡ number_or coded count (length out.old) }
{
    match count {
        Some(n) => set_const(out, n),
        None => fill(out, Bit::Unknown),
    }
}

// Zero minus a.
fn negate(a: &[u64], out: &mut [u64])
    requires { length a.now ≡ length out.old }
    ensures { out.new ≡ one_of coded OneOp.IntNegate a.now (length out.old) }
{
    fill(out, Bit::Zero);
    ripple_in(out, a, Ripple::Sub);
}

// Every bit inverted.
fn invert(a: &[u64], out: &mut [u64])
    requires { length a.now ≡ length out.old }
    ensures { out.new ≡ one_of coded OneOp.IntNot a.now (length out.old) }
{
    extend(out, a);
    not(out);
}

pub fn eval_one(op: OneOp, a: &[u64], out: &mut [u64])
    requires { fits_bits (sizes_one op) (length a.now) 0 (length out.old) ≡ true }
    ensures { out.new ≡ one_of coded op a.now (length out.old) }
{
    match op {
        OneOp::Copy => extend(out, a),
        OneOp::ZeroExtend => extend(out, a),
        OneOp::SignExtend => copy_any(out, a, sign(a)),
        OneOp::IntNot => invert(a, out),
        OneOp::IntNegate => negate(a, out),
        OneOp::IntCountOnes => set_count(out, count_ones(a)),
        OneOp::IntCountLeadingZeroes => set_count(out, count_leading_zeros(a)),
        OneOp::BoolNot => set_bool(out, lowest(a).not()),
    }
}
