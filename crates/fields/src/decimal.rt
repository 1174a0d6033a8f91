// Decimals: digits without leading zeros, up to a limit.
ghost use Rattle.std.specs.Prelude.{◌≡◌, ℕ, ◌<◌, ◌≤◌, length};
ghost use Rattle.fields.specs.Decimals.{decimal_of, digits_of, step_of};

// The value with one digit more, where it stays within the limit.
fn step(v: u64, b: u8, limit: u64) -> Option<u64>
    ensures { result ≡ step_of limit v b }
{
    if b < b'0' || b'9' < b {
        return None;
    }
    let d = (b - b'0') as u64;
    if limit < d || (limit - d) / 10 < v {
        return None;
    }
    Some(10 * v + d)
}

// The value of a row of digits; an empty row is 0.
fn digits(s: &[u8], limit: u64) -> Option<u64>
    ensures { result ≡ digits_of limit 0 s.now }
{
    let mut v: u64 = 0;
    for b in s {
        v = step(v, *b, limit)?;
    }
    Some(v)
}

// The value of a decimal: at least one digit, no leading zero, at most `limit`.
pub fn decimal(s: &[u8], limit: u64) -> Option<u64>
    ensures { result ≡ decimal_of limit s.now }
{
    if s.is_empty() {
        return None;
    }
    if 1 < s.len() && s[0] == b'0' {
        return None;
    }
    digits(s, limit)
}
