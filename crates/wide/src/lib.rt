// Numbers of up to 128 bits as two 64-bit halves, with wrapping operations and carries between them.
#![tactic(auto)]

ghost use Rattle.std.specs.Prelude.{◌≡◌, ℕ, ◌+◌, ◌*◌, ◌/◌, ◌%◌, ◌^◌, ◌<◌, ◌==◌, bit_and, bit_or, bit_xor, nat_lt};
ghost use Rattle.wide.specs.Value.{value_of};

// The low half first, so that a derived order would compare it first; `less` compares the numbers.
#[derive(Clone, Copy, PartialEq, Eq)]
pub struct Wide {
    pub lo: u64,
    pub hi: u64,
}

// The carry out of a + b at 64 bits.
fn carry(a: u64, b: u64) -> u64
    ensures { a + b ≡ result * 2 ^ 64 + (a + b) % 2 ^ 64 }
{
    u64::from(a.wrapping_add(b) < a)
}

// The borrow of a - b at 64 bits: what stands under the difference d is a + borrow * 2^64.
fn borrowed(a: u64, b: u64) -> u64
    ensures { (d : ℕ) → d < 2 ^ 64 → (d + b) % 2 ^ 64 ≡ a → d + b ≡ result * 2 ^ 64 + a }
{
    u64::from(a < b)
}

impl Wide {
    pub const ZERO: Wide = Wide { lo: 0, hi: 0 };

    pub const ONE: Wide = Wide { lo: 1, hi: 0 };

    // The two halves of a number.
    #[tactic(auto, unfolding(crate::specs::Value::value_of))]
    fn of(n: u128) -> Wide
        ensures { value_of result ≡ n }
    {
        Wide {
            lo: (n % 18446744073709551616) as u64,
            hi: (n / 18446744073709551616) as u64,
        }
    }

    // The number of two halves.
    #[tactic(auto, unfolding(crate::specs::Value::value_of))]
    fn number(self) -> u128
        ensures { result ≡ value_of self }
    {
        u128::from(self.lo) + 18446744073709551616 * u128::from(self.hi)
    }

    // The halves' sums wrap, with the carry between them.
    pub fn add(self, b: Wide) -> Wide
        ensures { value_of result ≡ (value_of self + value_of b) % 2 ^ 128 }
    {
        let lo = self.lo.wrapping_add(b.lo);
        let c = carry(self.lo, b.lo);
        let h = self.hi.wrapping_add(b.hi);
        let hi = h.wrapping_add(c);
        Wide { lo, hi }
    }

    // The number that gives `self` when `b` is added to it, with the borrow between the halves.
    pub fn sub(self, b: Wide) -> Wide
        ensures { (value_of result + value_of b) % 2 ^ 128 ≡ value_of self }
    {
        let lo = self.lo.wrapping_sub(b.lo);
        let c = borrowed(self.lo, b.lo);
        let h = self.hi.wrapping_sub(b.hi);
        let hi = h.wrapping_sub(c);
        Wide { lo, hi }
    }

    pub fn mul(self, b: Wide) -> Wide
        ensures { value_of result ≡ (value_of self * value_of b) % 2 ^ 128 }
    {
        Wide::of(self.number().wrapping_mul(b.number()))
    }

    pub fn and(self, b: Wide) -> Wide
        ensures { value_of result ≡ bit_and (value_of self) (value_of b) }
    {
        Wide::of(self.number() & b.number())
    }

    pub fn or(self, b: Wide) -> Wide
        ensures { value_of result ≡ bit_or (value_of self) (value_of b) }
    {
        Wide::of(self.number() | b.number())
    }

    pub fn xor(self, b: Wide) -> Wide
        ensures { value_of result ≡ bit_xor (value_of self) (value_of b) }
    {
        Wide::of(self.number() ^ b.number())
    }

    pub fn same(self, b: Wide) -> bool
        ensures { result ≡ (value_of self == value_of b) }
    {
        self.number() == b.number()
    }

    pub fn less(self, b: Wide) -> bool
        ensures { result ≡ nat_lt (value_of self) (value_of b) }
    {
        self.number() < b.number()
    }

    // The lowest `bits` bits.
    #[tactic(auto, using(crate::proofs::Powers::all_kept))]
    pub fn cut(self, bits: u64) -> Wide
        ensures { value_of result ≡ value_of self % 2 ^ bits }
    {
        let n = self.number();
        if bits < 128 {
            Wide::of(n % (1 << bits))
        } else {
            self
        }
    }

    // A quotient by 2^k.
    #[tactic(auto, using(crate::proofs::Powers::none_left), unfolding(crate::specs::Value::value_of))]
    pub fn shr(self, k: u64) -> Wide
        ensures { value_of result ≡ value_of self / 2 ^ k }
    {
        let n = self.number();
        if k < 128 {
            Wide::of(n >> k)
        } else {
            Wide::ZERO
        }
    }
}
