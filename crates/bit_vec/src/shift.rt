// Shifts by an amount that may be known in part, and rotates by a known amount.
ghost use Rattle.std.specs.Prelude.{◌≡◌, ◌≤◌, length, replicate};
ghost use Rattle.bit.specs.Bits.{code_of};
ghost use Rattle.bit_vec.specs.Lists.{bits};
ghost use Rattle.bit_vec.specs.Moves.{last_of, up, down, rotate_left, rotate_right};
ghost use Rattle.bit_vec.specs.Known.{left_of, right_of};

use crate::known::{get_const, min};
use crate::moves::{copy, copy_any, fill, repeat, sign};
use bit::Bit;

// `a`, k places up, with zeros below.
pub fn shift_up(out: &mut [u64], a: &[u64], k: usize)
    requires { (length a.now ≡ length out.old) × (k ≤ length out.old) }
    ensures { out.new ≡ up (code_of Bit.Zero) k a.now }
{
    let zero = Bit::Zero.encode();
    copy_any(&mut out[k..], a, zero);
    repeat(&mut out[..k], zero);
}

// `a`, k places down, with `high` above.
pub fn shift_down(out: &mut [u64], a: &[u64], k: usize, high: u64)
    requires { (length a.now ≡ length out.old) × (k ≤ length out.old) }
    ensures { out.new ≡ down high k a.now }
{
    copy_any(out, &a[k..], high);
}

// Unknown, but for the lowest m places, which are zero.
fn unknown_above(out: &mut [u64], m: usize)
    requires { m ≤ length out.old }
    ensures { out.new ≡ up (code_of Bit.Zero) m (replicate (length out.old) (code_of Bit.Unknown)) }
{
    fill(out, Bit::Unknown);
    fill(&mut out[..m], Bit::Zero);
}

// Unknown, but for the highest m places, which are `high`.
fn unknown_below(out: &mut [u64], m: usize, high: u64)
    requires { m ≤ length out.old }
    ensures { out.new ≡ down high m (replicate (length out.old) (code_of Bit.Unknown)) }
{
    let n = out.len() - m;
    fill(out, Bit::Unknown);
    repeat(&mut out[n..], high);
}

// `a` shifted left by the bits of `shift`.
pub fn shift_left(out: &mut [u64], a: &[u64], shift: &[u64])
    requires { length a.now ≡ length out.old }
    ensures { out.new ≡ left_of (code_of Bit.Zero) (code_of Bit.Unknown) a.now (bits shift.now) }
{
    let m = min(shift) as usize;
    if out.len() <= m {
        fill(out, Bit::Zero);
        return;
    }
    match get_const(shift) {
        Some(k) => shift_up(out, a, k as usize),
        None => unknown_above(out, m),
    }
}

// `a` shifted right by the bits of `shift`, with `high` from above.
pub fn shift_right(out: &mut [u64], a: &[u64], shift: &[u64], high: u64)
    requires { length a.now ≡ length out.old }
    ensures { out.new ≡ right_of high (code_of Bit.Unknown) a.now (bits shift.now) }
{
    let m = min(shift) as usize;
    if out.len() <= m {
        repeat(out, high);
        return;
    }
    match get_const(shift) {
        Some(k) => shift_down(out, a, k as usize, high),
        None => unknown_below(out, m, high),
    }
}

// `a` shifted right by the bits of `shift`, with its sign from above.
pub fn shift_right_signed(out: &mut [u64], a: &[u64], shift: &[u64])
    requires { length a.now ≡ length out.old }
    ensures { out.new ≡ right_of (last_of (code_of Bit.Zero) a.now) (code_of Bit.Unknown) a.now (bits shift.now) }
{
    let high = sign(a);
    shift_right(out, a, shift, high);
}

// Bit (i + s) modulo the width of `a` at place i.
pub fn rotate_left(out: &mut [u64], a: &[u64], s: usize)
    requires { (length a.now ≡ length out.old) × (s ≤ length out.old) }
    ensures { out.new ≡ rotate_left s a.now }
{
    let n = out.len() - s;
    copy(&mut out[n..], &a[..s]);
    copy(&mut out[..n], &a[s..]);
}

// Bit i of `a` at place (i + s) modulo the width.
pub fn rotate_right(out: &mut [u64], a: &[u64], s: usize)
    requires { (length a.now ≡ length out.old) × (s ≤ length out.old) }
    ensures { out.new ≡ rotate_right s a.now }
{
    rotate_left(out, a, out.len() - s);
}
