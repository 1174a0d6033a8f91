// Symbolic bits: zero, one, unknown, or an expression; the logic on them, and the number that stands for each.
#![tactic(auto)]

ghost use Rattle.std.specs.Prelude.{◌≡◌};
ghost use Rattle.bit.specs.Bits.{kin_of, by_kin, beside, not_e, not_b, and_b, or_b, xor_b, eq_b, code_e, code_of, bit_of};

use pcode::var::OutputExprId;

// Bit `offset` of what the expression `id` gave, or its inverse.
#[derive(Clone, Copy, PartialEq, Eq)]
pub struct Expr {
    pub id: OutputExprId,
    pub offset: u8,
    pub invert: bool,
}

// How two expressions stand to each other.
#[derive(Clone, Copy)]
pub enum Kin {
    Same,
    Opposite,
    Unrelated,
}

#[derive(Clone, Copy, PartialEq, Eq)]
pub enum Bit {
    Zero,
    One,
    Unknown,
    Expr(Expr),
}

impl Expr {
    pub fn kin(self, other: Expr) -> Kin
        ensures { result ≡ kin_of self other }
    {
        if self == other {
            Kin::Same
        } else if self == other.not() {
            Kin::Opposite
        } else {
            Kin::Unrelated
        }
    }

    // What two expressions give: `same`, `opposite`, or unknown where they are unrelated.
    fn pair(self, other: Expr, same: Bit, opposite: Bit) -> Bit
        ensures { result ≡ by_kin (kin_of self other) same opposite }
    {
        match self.kin(other) {
            Kin::Same => same,
            Kin::Opposite => opposite,
            Kin::Unrelated => Bit::Unknown,
        }
    }

    pub fn not(self) -> Expr
        ensures { result ≡ not_e self }
    {
        Expr {
            invert: !self.invert,
            ..self
        }
    }

    // From 4 on, odd where inverted.
    fn encode(self) -> u64
        ensures { result ≡ code_e self }
    {
        let id = self.id;
        4 + 512 * u64::from(id.0) + 2 * u64::from(self.offset) + u64::from(self.invert)
    }
}

impl Bit {
    // What an expression and a bit give: one of four answers by the bit, or unknown.
    fn beside(self, e: Expr, zero: Bit, one: Bit, same: Bit, opposite: Bit) -> Bit
        ensures { result ≡ beside self e zero one same opposite }
    {
        match self {
            Bit::Zero => zero,
            Bit::One => one,
            Bit::Unknown => Bit::Unknown,
            Bit::Expr(b) => e.pair(b, same, opposite),
        }
    }

    #[tactic(auto, unfolding(crate::specs::Bits::not_b))]
    pub fn not(self) -> Bit
        ensures { result ≡ not_b self }
    {
        match self {
            Bit::Zero => Bit::One,
            Bit::One => Bit::Zero,
            Bit::Unknown => Bit::Unknown,
            Bit::Expr(e) => Bit::Expr(e.not()),
        }
    }

    #[tactic(auto, unfolding(crate::specs::Bits::and_b))]
    pub fn and(self, other: Bit) -> Bit
        ensures { result ≡ and_b self other }
    {
        match self {
            Bit::Zero => Bit::Zero,
            Bit::One => other,
            Bit::Unknown if other == Bit::Zero => Bit::Zero,
            Bit::Unknown => Bit::Unknown,
            Bit::Expr(a) => other.beside(a, Bit::Zero, self, self, Bit::Zero),
        }
    }

    #[tactic(auto, using(crate::proofs::Laws::or_dual))]
    pub fn or(self, other: Bit) -> Bit
        ensures { result ≡ or_b self other }
    {
        self.not().and(other.not()).not()
    }

    #[tactic(auto, unfolding(crate::specs::Bits::xor_b, crate::specs::Bits::not_b))]
    pub fn xor(self, other: Bit) -> Bit
        ensures { result ≡ xor_b self other }
    {
        match self {
            Bit::Zero => other,
            Bit::One => other.not(),
            Bit::Unknown => Bit::Unknown,
            Bit::Expr(a) => other.beside(a, self, self.not(), Bit::Zero, Bit::One),
        }
    }

    // Whether two bits are equal, as a bit.
    #[tactic(auto, using(crate::proofs::Laws::eq_not_xor))]
    pub fn is_eq(self, other: Bit) -> Bit
        ensures { result ≡ eq_b self other }
    {
        self.xor(other).not()
    }

    // The number that stands for the bit.
    #[tactic(auto, unfolding(crate::specs::Bits::code_of))]
    pub fn encode(self) -> u64
        ensures { result ≡ code_of self }
    {
        match self {
            Bit::Zero => 0,
            Bit::One => 1,
            Bit::Unknown => 2,
            Bit::Expr(e) => e.encode(),
        }
    }

    // The bit that a number stands for; each number stands for one.
    #[tactic(auto, unfolding(crate::specs::Bits::bit_of))]
    pub fn decode(n: u64) -> Bit
        ensures { result ≡ bit_of n }
    {
        match n {
            0 => return Bit::Zero,
            1 => return Bit::One,
            2 | 3 => return Bit::Unknown,
            _ => {}
        }
        let m = n - 4;
        let id = OutputExprId((m / 512 % 4294967296) as u32);
        Bit::Expr(Expr {
            id,
            offset: (m / 2 % 256) as u8,
            invert: m % 2 == 1,
        })
    }
}
