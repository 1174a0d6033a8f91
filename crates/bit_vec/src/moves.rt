// Filling, copying, extending and setting a slice of bits.
ghost use Rattle.std.specs.Prelude.{◌≡◌, length, get_or, replicate};
ghost use Rattle.bit.specs.Bits.{code_of};
ghost use Rattle.bit_vec.specs.Lists.{codes};
ghost use Rattle.bit_vec.specs.Moves.{fit, last_of, truth, digit, digits};

use bit::Bit;

// One code at every place.
pub fn repeat(out: &mut [u64], code: u64)
    ensures { out.new ≡ replicate (length out.old) code }
{
    out.fill(code);
}

// One bit at every place.
pub fn fill(out: &mut [u64], bit: Bit)
    ensures { out.new ≡ replicate (length out.old) (code_of bit) }
{
    out.fill(bit.encode());
}

// What stands at place i, or `past` beyond the end.
pub fn at(s: &[u64], i: usize, past: u64) -> u64
    ensures { result ≡ get_or s.now i past }
{
    s.get(i).copied().unwrap_or(past)
}

// The codes of a slice of the same length. A loop, since std's `copy_from_slice` and `rotate_left` take `memmove` from C, a name that the static library
// does not ask its host for.
pub fn copy(out: &mut [u64], other: &[u64])
    requires { length out.old ≡ length other.now }
    ensures { out.new ≡ other.now }
{
    for (i, x) in out.iter_mut().enumerate() {
        *x = other[i];
    }
}

// A copy, cut where `other` is longer, with `high` in the places above where it is shorter.
pub fn copy_any(out: &mut [u64], other: &[u64], high: u64)
    ensures { out.new ≡ fit high (length out.old) other.now }
{
    let n = out.len().min(other.len());
    copy(&mut out[..n], &other[..n]);
    repeat(&mut out[n..], high);
}

// The highest bit's code; zero's where there is no bit.
#[tactic(auto, using(crate::proofs::Moved::last_got))]
pub fn sign(s: &[u64]) -> u64
    ensures { result ≡ last_of (code_of Bit.Zero) s.now }
{
    let zero = Bit::Zero.encode();
    s.last().copied().unwrap_or(zero)
}

// A truth value: bit 0, the rest zero.
pub fn set_bool(out: &mut [u64], bit: Bit)
    ensures { out.new ≡ codes (truth (length out.old) bit) }
{
    fill(out, Bit::Zero);
    if let Some(lowest) = out.first_mut() {
        *lowest = bit.encode();
    }
}

// The bit of an odd or an even number.
fn lowest(value: u64) -> Bit
    ensures { result ≡ digit value }
{
    if value % 2 == 1 { Bit::One } else { Bit::Zero }
}

// The binary digits of a number, cut to the slice.
pub fn set_const(out: &mut [u64], value: u64)
    ensures { out.new ≡ codes (digits (length out.old) value) }
{
    let mut rest = value;
    for x in out.iter_mut() {
        *x = lowest(rest).encode();
        rest /= 2;
    }
}
