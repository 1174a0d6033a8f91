// Numbers at a width: masks, signs, sums, differences, products, shifts and counts.
ghost use Rattle.std.specs.Prelude.{◌≡◌, Bool, true, false, ℕ, ◌+◌, ◌-◌, ◌*◌, ◌/◌, ◌%◌, ◌^◌, ◌<◌, ◌≤◌, eqb, ltb, leb};
ghost use Rattle.wide.specs.Value.{value_of};
ghost use Rattle.meaning.specs.Meaning.{sign, count_ones, leading_zeros, shift_left, shift_right};

use wide::Wide;

// The number whose lowest `w` bits are one.
#[tactic(auto, using(crate::proofs::Widths::all_cut), unfolding(wide::specs::Value::value_of))]
pub fn ones(w: u64) -> Wide
    requires { w ≤ 128 }
    ensures { value_of result ≡ 2 ^ w - 1 }
{
    let all = Wide {
        lo: u64::MAX,
        hi: u64::MAX,
    };
    all.cut(w)
}

#[tactic(auto, unfolding(wide::specs::Value::value_of))]
pub fn small(n: u64) -> Wide
    ensures { value_of result ≡ n }
{
    Wide { lo: n, hi: 0 }
}

#[tactic(auto, using(crate::proofs::Widths::cut_cut))]
pub fn add_at(w: u64, a: Wide, b: Wide) -> Wide
    requires { w ≤ 128 }
    ensures { value_of result ≡ (value_of a + value_of b) % 2 ^ w }
{
    a.add(b).cut(w)
}

#[tactic(auto, using(crate::proofs::Widths::cut_cut))]
pub fn mul_at(w: u64, a: Wide, b: Wide) -> Wide
    requires { w ≤ 128 }
    ensures { value_of result ≡ (value_of a * value_of b) % 2 ^ w }
{
    a.mul(b).cut(w)
}

pub fn sub_at(w: u64, a: Wide, b: Wide) -> Wide
    requires { (w ≤ 128) × (value_of b ≤ 2 ^ w) }
    ensures { value_of result ≡ (value_of a + (2 ^ w - value_of b)) % 2 ^ w }
{
    a.sub(b).cut(w)
}

// A difference that does not wrap.
pub fn minus(a: Wide, b: Wide) -> Wide
    requires { value_of b ≤ value_of a }
    ensures { value_of result ≡ value_of a - value_of b }
{
    a.sub(b)
}

// Every bit below the width flipped.
pub fn flip(w: u64, a: Wide) -> Wide
    requires { (w ≤ 128) × (value_of a < 2 ^ w) }
    ensures { value_of result ≡ 2 ^ w - 1 - value_of a }
{
    minus(ones(w), a)
}

// 2^k.
fn power(k: u64) -> Wide
    requires { k < 128 }
    ensures { value_of result ≡ 2 ^ k }
{
    ones(k).add(small(1))
}

// The highest of `w` bits.
pub fn sign_at(w: u64, a: Wide) -> bool
    requires { (0 < w) × (w ≤ 128) }
    ensures { result ≡ sign w (value_of a) }
{
    !a.less(power(w - 1))
}

// Whether an amount is the width or more.
fn past(w: u64, b: Wide) -> bool
    ensures { result ≡ leb w (value_of b) }
{
    !b.less(small(w))
}

#[tactic(auto, using(crate::proofs::Widths::low_half))]
pub fn left(w: u64, a: Wide, b: Wide) -> Wide
    requires { w ≤ 128 }
    ensures { value_of result ≡ shift_left w (value_of a) (value_of b) }
{
    if past(w, b) {
        return small(0);
    }
    let k = b.lo;
    mul_at(w, a, power(k))
}

#[tactic(auto, using(crate::proofs::Widths::low_half))]
pub fn right(w: u64, a: Wide, b: Wide) -> Wide
    requires { w ≤ 128 }
    ensures { value_of result ≡ shift_right w (value_of a) (value_of b) }
{
    if past(w, b) {
        return small(0);
    }
    let k = b.lo;
    a.shr(k)
}

// How many of the lowest `w` bits are one.
pub fn count_ones(w: u64, a: Wide) -> u64
    requires { w ≤ 128 }
    ensures { result ≡ count_ones w (value_of a) }
{
    let mut n: u64 = 0;
    let mut rest = a;
    for _ in 0..w {
        n += rest.lo % 2;
        rest = rest.shr(1);
    }
    n
}

// How many zeros stand above the highest one, of `w` bits.
pub fn count_leading_zeros(w: u64, a: Wide) -> u64
    requires { w ≤ 128 }
    ensures { result ≡ leading_zeros w (value_of a) }
{
    for i in (0..w).rev() {
        if !a.less(power(i)) {
            return w - 1 - i;
        }
    }
    w
}
