// Sums and differences, by half sum, half carry, or, from the lowest place up.
ghost use Rattle.std.specs.Prelude.{◌≡◌, length};
ghost use Rattle.bit.specs.Bits.{code_of};
ghost use Rattle.bit_vec.specs.Lists.{bits, codes, ripple_bits, ripple_carry, place_step, last_place, add_overflow, sub_overflow};

use crate::moves::sign;
use bit::Bit;

#[derive(Clone, Copy)]
pub enum Ripple {
    Add,
    Sub,
}

// What a place of a sum or a difference gives: its digit, and the carry or the borrow out of it.
#[derive(Clone, Copy)]
pub struct Place {
    pub carry: Bit,
    pub digit: Bit,
}

impl Place {
    pub fn start() -> Place
        ensures { result ≡ record { carry = Bit.Zero; digit = Bit.Zero } }
    {
        Place {
            carry: Bit::Zero,
            digit: Bit::Zero,
        }
    }

    // The next place, with bits x and y.
    pub fn step(self, op: Ripple, x: Bit, y: Bit) -> Place
        ensures { result ≡ place_step op self x y }
    {
        let c = self.carry;
        let half = x.xor(y);
        let digit = half.xor(c);
        match op {
            Ripple::Add => {
                let half_carry = x.and(y);
                let full_carry = half.and(c);
                let carry = half_carry.or(full_carry);
                Place { carry, digit }
            }
            Ripple::Sub => {
                let half_borrow = x.not().and(y);
                let full_borrow = half.not().and(c);
                let carry = half_borrow.or(full_borrow);
                Place { carry, digit }
            }
        }
    }
}

// Adds or subtracts `other`, in place; the answer is the last carry or borrow.
pub fn ripple_in(out: &mut [u64], other: &[u64], op: Ripple) -> Bit
    requires { length out.old ≡ length other.now }
    ensures { (out.new ≡ codes (ripple_bits op (bits out.old) (bits other.now))) × (result ≡ ripple_carry op (bits out.old) (bits other.now)) }
{
    let mut p = Place::start();
    for (i, x) in out.iter_mut().enumerate() {
        p = p.step(op, Bit::decode(*x), Bit::decode(other[i]));
        let d = p.digit;
        *x = d.encode();
    }
    p.carry
}

// The last place of a sum or a difference: the walk of `ripple_in`, with no slice to write to.
pub fn last_place(a: &[u64], b: &[u64], op: Ripple) -> Place
    requires { length a.now ≡ length b.now }
    ensures { result ≡ last_place op (bits a.now) (bits b.now) }
{
    let mut p = Place::start();
    for (x, y) in a.iter().zip(b) {
        p = p.step(op, Bit::decode(*x), Bit::decode(*y));
    }
    p
}

// Whether a signed sum overflows: the operands' signs agree, and the sum's is another.
#[tactic(auto, using(crate::proofs::Moved::sign_bit))]
pub fn add_overflow(a: &[u64], b: &[u64]) -> Bit
    requires { length a.now ≡ length b.now }
    ensures { result ≡ add_overflow (bits a.now) (bits b.now) }
{
    let p = last_place(a, b, Ripple::Add);
    let c = p.digit;
    let x = Bit::decode(sign(a));
    let y = Bit::decode(sign(b));
    let above = x.or(y).not().and(c);
    let below = x.and(y).and(c.not());
    above.or(below)
}

// Whether a signed difference overflows: the operands' signs differ, and the difference's is not the first's.
#[tactic(auto, using(crate::proofs::Moved::sign_bit))]
pub fn sub_overflow(a: &[u64], b: &[u64]) -> Bit
    requires { length a.now ≡ length b.now }
    ensures { result ≡ sub_overflow (bits a.now) (bits b.now) }
{
    let p = last_place(a, b, Ripple::Sub);
    let c = p.digit;
    let x = Bit::decode(sign(a));
    let y = Bit::decode(sign(b));
    let differ = x.xor(y);
    differ.and(c.xor(x))
}
