// Comparisons, carries and the borrow at a width.
ghost use Rattle.std.specs.Prelude.{◌≡◌, Bool, true, false, not, ℕ, ◌+◌, ◌-◌, ◌*◌, ◌%◌, ◌^◌, ◌<◌, ◌≤◌, leb, ◌+ℤ◌, ◌-ℤ◌};
ghost use Rattle.std.specs.Int.Signed.{lt_z};
ghost use Rattle.wide.specs.Value.{value_of};
ghost use Rattle.meaning.specs.Meaning.{signed, in_range, means_compare};
ghost use Rattle.concrete.specs.Fits.{Both};

use crate::number::{add_at, sign_at, sub_at};
use pcode::op::CompareOp;
use wide::Wide;

// A sum that wraps is below each operand.
fn carry(w: u64, a: Wide, b: Wide) -> bool
    requires { Both w (value_of a) (value_of b) }
    ensures { result ≡ leb (2 ^ w) (value_of a + value_of b) }
{
    add_at(w, a, b).less(a)
}

// The unsigned order where the signs are the same; else the negative one is less.
fn signed_less(w: u64, a: Wide, b: Wide) -> bool
    requires { Both w (value_of a) (value_of b) }
    ensures { result ≡ lt_z (signed w (value_of a)) (signed w (value_of b)) }
{
    let x = sign_at(w, a);
    if x == sign_at(w, b) { a.less(b) } else { x }
}

// The operands' signs are the same, and the sum's is not.
fn signed_carry(w: u64, a: Wide, b: Wide) -> bool
    requires { Both w (value_of a) (value_of b) }
    ensures { result ≡ not (in_range w (signed w (value_of a) +ℤ signed w (value_of b))) }
{
    let x = sign_at(w, a);
    x == sign_at(w, b) && x != sign_at(w, add_at(w, a, b))
}

// The operands' signs are not the same, and the difference's is not the first's.
fn signed_borrow(w: u64, a: Wide, b: Wide) -> bool
    requires { Both w (value_of a) (value_of b) }
    ensures { result ≡ not (in_range w (signed w (value_of a) -ℤ signed w (value_of b))) }
{
    let x = sign_at(w, a);
    x != sign_at(w, b) && x != sign_at(w, sub_at(w, a, b))
}

pub fn compare(k: CompareOp, w: u64, a: Wide, b: Wide) -> bool
    requires { Both w (value_of a) (value_of b) }
    ensures { result ≡ means_compare k w (value_of a) (value_of b) }
{
    match k {
        CompareOp::IntEqual => a.same(b),
        CompareOp::IntNotEqual => !a.same(b),
        CompareOp::IntLess => a.less(b),
        CompareOp::IntSignedLess => signed_less(w, a, b),
        CompareOp::IntLessEqual => !b.less(a),
        CompareOp::IntSignedLessEqual => !signed_less(w, b, a),
        CompareOp::IntCarry => carry(w, a, b),
        CompareOp::IntSignedCarry => signed_carry(w, a, b),
        CompareOp::IntSignedBorrow => signed_borrow(w, a, b),
    }
}
