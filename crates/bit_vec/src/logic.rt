// The logic of bits, place by place, and the equality of two vectors.
ghost use Rattle.std.specs.Prelude.{◌≡◌, map, length};
ghost use Rattle.bit.specs.Bits.{not_b};
ghost use Rattle.bit_vec.specs.Lists.{bits, codes, logic_b, zip_bits, eq_bits, value_of};

use bit::Bit;

#[derive(Clone, Copy)]
pub enum Logic {
    And,
    Or,
    Xor,
}

impl Logic {
    pub fn apply(self, x: Bit, y: Bit) -> Bit
        ensures { result ≡ logic_b self x y }
    {
        match self {
            Logic::And => x.and(y),
            Logic::Or => x.or(y),
            Logic::Xor => x.xor(y),
        }
    }
}

// And, or, exclusive or with `other`, in place. By a place's number: in a loop over `out.iter_mut().zip(other)` a proof does not see `out`.
pub fn bitwise(out: &mut [u64], other: &[u64], op: Logic)
    requires { length out.old ≡ length other.now }
    ensures { out.new ≡ codes (zip_bits (logic_b op) (bits out.old) (bits other.now)) }
{
    for (i, x) in out.iter_mut().enumerate() {
        let z = op.apply(Bit::decode(*x), Bit::decode(other[i]));
        *x = z.encode();
    }
}

// Every bit inverted, in place.
pub fn not(out: &mut [u64])
    ensures { out.new ≡ codes (map not_b (bits out.old)) }
{
    for x in out.iter_mut() {
        let b = Bit::decode(*x);
        *x = b.not().encode();
    }
}

// 0 for zero, 1 for one, nothing for a bit that is not decided.
pub fn value(b: Bit) -> Option<u64>
    ensures { result ≡ value_of b }
{
    match b {
        Bit::Zero => Some(0),
        Bit::One => Some(1),
        Bit::Unknown | Bit::Expr(_) => None,
    }
}

// Whether two vectors are equal, as a bit.
pub fn is_eq(a: &[u64], b: &[u64]) -> Bit
    requires { length a.now ≡ length b.now }
    ensures { result ≡ eq_bits (bits a.now) (bits b.now) }
{
    let mut undecided: usize = 0;
    let mut last = Bit::One;
    for (x, y) in a.iter().zip(b) {
        match Bit::decode(*x).is_eq(Bit::decode(*y)) {
            Bit::Zero => return Bit::Zero,
            Bit::One => {}
            e => {
                undecided += 1;
                last = e;
            }
        }
    }
    if undecided <= 1 { last } else { Bit::Unknown }
}
