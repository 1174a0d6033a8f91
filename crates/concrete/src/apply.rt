// One operation of the run class, family by family.
ghost use Rattle.std.specs.Prelude.{◌≡◌, Bool, true, false, not, ◌&&◌, ◌||◌, ℕ, ◌+◌, ◌-◌, ◌*◌, ◌/◌, ◌%◌, ◌^◌, ◌<◌, ◌≤◌, eqb};
ghost use Rattle.pcode.specs.Var.{pick};
ghost use Rattle.wide.specs.Value.{value_of};
ghost use Rattle.meaning.specs.Meaning.{one_if, odd, sign, means_one, means_two, means_shift, means_bool, meaning};
ghost use Rattle.concrete.specs.Fits.{Alone, Both, Grows, Applies};

use crate::compare::compare;
use crate::number::{
    add_at, count_leading_zeros, count_ones, flip, left, minus, mul_at, ones, right, sign_at,
    small, sub_at,
};
use pcode::op::{BoolOp, OneOp, Op, ShiftOp, TwoOp};
use wide::Wide;

pub fn truth(b: bool) -> Wide
    ensures { value_of result ≡ one_if b }
{
    small(u64::from(b))
}

// Bit 0.
#[tactic(auto, using(crate::proofs::Counts::low_bit))]
fn is_odd(a: Wide) -> bool
    ensures { result ≡ odd (value_of a) }
{
    a.lo % 2 == 1
}

fn sign_extend(w: u64, o: u64, a: Wide) -> Wide
    requires { Alone w (value_of a) × (w ≤ o) × (o ≤ 128) }
    ensures { value_of result ≡ means_one OneOp.SignExtend w o (value_of a) }
{
    if !sign_at(w, a) {
        return a;
    }
    let high = minus(ones(o), ones(w));
    a.add(high)
}

pub fn apply_one(k: OneOp, w: u64, o: u64, a: Wide) -> Wide
    requires { Alone w (value_of a) × Grows k w o × (o ≤ 128) }
    ensures { value_of result ≡ means_one k w o (value_of a) }
{
    match k {
        OneOp::Copy | OneOp::ZeroExtend => a,
        OneOp::SignExtend => sign_extend(w, o, a),
        OneOp::IntNot => flip(w, a),
        OneOp::IntNegate => sub_at(w, small(0), a),
        OneOp::IntCountOnes => small(count_ones(w, a)).cut(o),
        OneOp::IntCountLeadingZeroes => small(count_leading_zeros(w, a)).cut(o),
        OneOp::BoolNot => truth(!is_odd(a)),
    }
}

pub fn apply_two(k: TwoOp, w: u64, a: Wide, b: Wide) -> Wide
    requires { Both w (value_of a) (value_of b) }
    ensures { value_of result ≡ means_two k w (value_of a) (value_of b) }
{
    match k {
        TwoOp::IntAdd => add_at(w, a, b),
        TwoOp::IntSub => sub_at(w, a, b),
        TwoOp::IntXor => a.xor(b),
        TwoOp::IntOr => a.or(b),
        TwoOp::IntAnd => a.and(b),
        TwoOp::IntMul => mul_at(w, a, b),
    }
}

fn signed_right(w: u64, a: Wide, b: Wide) -> Wide
    requires { Alone w (value_of a) }
    ensures { value_of result ≡ means_shift ShiftOp.IntSignedRight w (value_of a) (value_of b) }
{
    if !sign_at(w, a) {
        return right(w, a, b);
    }
    let low = right(w, flip(w, a), b);
    flip(w, low)
}

pub fn apply_shift(k: ShiftOp, w: u64, a: Wide, b: Wide) -> Wide
    requires { Alone w (value_of a) }
    ensures { value_of result ≡ means_shift k w (value_of a) (value_of b) }
{
    match k {
        ShiftOp::IntLeft => left(w, a, b),
        ShiftOp::IntRight => right(w, a, b),
        ShiftOp::IntSignedRight => signed_right(w, a, b),
    }
}

pub fn apply_bool(k: BoolOp, a: Wide, b: Wide) -> bool
    ensures { result ≡ means_bool k (value_of a) (value_of b) }
{
    match k {
        BoolOp::BoolAnd => is_odd(a) && is_odd(b),
        BoolOp::BoolOr => is_odd(a) || is_odd(b),
        BoolOp::BoolXor => is_odd(a) != is_odd(b),
    }
}

fn subpiece(n: u16, o: u64, a: Wide) -> Wide
    ensures { value_of result ≡ (value_of a / 2 ^ (8 * n)) % 2 ^ o }
{
    a.shr(8 * u64::from(n)).cut(o)
}

// What an operation of the run class gives; 0 for the others, which give nothing by themselves.
#[tactic(auto, unfolding(meaning::specs::Meaning::meaning))]
pub fn apply(op: Op, w: u64, o: u64, a: Wide, b: Wide) -> Wide
    requires { Applies op w o (value_of a) (value_of b) }
    ensures { value_of result ≡ meaning op w o (value_of a) (value_of b) }
{
    match op {
        Op::Subpiece(n) => subpiece(n, o, a),
        Op::One(k) => apply_one(k, w, o, a),
        Op::Two(k) => apply_two(k, w, a, b),
        Op::Shift(k) => apply_shift(k, w, a, b),
        Op::Compare(k) => truth(compare(k, w, a, b)),
        Op::Bool(k) => truth(apply_bool(k, a, b)),
        Op::Trap(_) | Op::InstructionMarker | Op::Load(_) | Op::Store(_) => small(0),
        Op::PcodeLabel(_) | Op::PcodeBranch(_) | Op::Branch(_) => small(0),
        Op::Call(_, _) | Op::Select(_) | Op::Opaque(_) | Op::Float(_) => small(0),
        Op::Divide(_) | Op::Rotate(_) => small(0),
    }
}
