// Multiplication: by constants, by zero, and by a power of two.
ghost use Rattle.std.specs.Prelude.{◌≡◌, ◌*◌, ◌%◌, ◌^◌, length};
ghost use Rattle.eval.specs.Held.{coded};
ghost use Rattle.eval.specs.Eval.{mul_known, mul_of};

use bit::Bit;
use bit_vec::known::{count_ones, get_const, known_trailing_zeros};
use bit_vec::moves::{fill, set_const};
use bit_vec::shift::shift_up;

// The product, modulo 2^64.
pub fn wrapping_mul(x: u64, y: u64) -> u64
    ensures { result ≡ x * y % 2 ^ 64 }
{
    x.wrapping_mul(y)
}

// The product with a known number: zero by zero, a shift by a power of two, else unknown.
fn mul_known(known: &[u64], other: &[u64], out: &mut [u64])
    requires { (length known.now ≡ length out.old) × (length other.now ≡ length out.old) }
    ensures { out.new ≡ mul_known coded known.now other.now (length out.old) }
{
    match count_ones(known) {
        Some(0) => fill(out, Bit::Zero),
        Some(1) => shift_up(out, other, known_trailing_zeros(known)),
        _ => fill(out, Bit::Unknown),
    }
}

pub fn mul(a: &[u64], b: &[u64], out: &mut [u64])
    requires { (length a.now ≡ length out.old) × (length b.now ≡ length out.old) }
    ensures { out.new ≡ mul_of coded a.now b.now (length out.old) }
{
    match (get_const(a), get_const(b)) {
        (Some(x), Some(y)) => set_const(out, wrapping_mul(x, y)),
        (Some(_), None) => mul_known(a, b, out),
        (None, Some(_)) => mul_known(b, a, out),
        (None, None) => fill(out, Bit::Unknown),
    }
}
