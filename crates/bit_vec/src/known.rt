// What is known of a bit vector: its constant, its least value, and counts of its bits.
ghost use Rattle.std.specs.Prelude.{◌≡◌};
ghost use Rattle.bit_vec.specs.Lists.{bits};
ghost use Rattle.bit_vec.specs.Known.{const_of, least, count_ones, leading_zeros, trailing_zeros};

use crate::logic::value;
use bit::Bit;

// Each count is a loop of its own: a fold by a closure would have to be told a bound on the count before each call.

// The number that the bits are, where every one is known and there are at most 64.
pub fn get_const(s: &[u64]) -> Option<u64>
    ensures { result ≡ const_of (bits s.now) }
{
    if 64 < s.len() {
        return None;
    }
    let mut n: u64 = 0;
    for c in s.iter().rev() {
        let v = value(Bit::decode(*c))?;
        n = 2 * n + v;
    }
    Some(n)
}

// The least number that the bits can be, modulo 2^64.
pub fn min(s: &[u64]) -> u64
    ensures { result ≡ least (bits s.now) }
{
    let mut n: u64 = 0;
    for c in s.iter().rev() {
        let v = value(Bit::decode(*c)).unwrap_or(0);
        n = n % 9223372036854775808 * 2 + v;
    }
    n
}

// How many bits are one, where every one is known.
pub fn count_ones(s: &[u64]) -> Option<u64>
    ensures { result ≡ count_ones (bits s.now) }
{
    let mut n: u64 = 0;
    for c in s.iter().rev() {
        let v = value(Bit::decode(*c))?;
        n += v;
    }
    Some(n)
}

// How many bits above the highest one are zero, where they and it are known; all of them where each is zero.
pub fn count_leading_zeros(s: &[u64]) -> Option<u64>
    ensures { result ≡ leading_zeros (bits s.now) }
{
    let mut n: u64 = 0;
    for c in s.iter().rev() {
        let v = value(Bit::decode(*c))?;
        if v == 1 {
            return Some(n);
        }
        n += 1;
    }
    Some(n)
}

// How many of the lowest bits are known to be zero.
pub fn known_trailing_zeros(s: &[u64]) -> usize
    ensures { result ≡ trailing_zeros (bits s.now) }
{
    for (i, c) in s.iter().enumerate() {
        if Bit::decode(*c) != Bit::Zero {
            return i;
        }
    }
    s.len()
}
