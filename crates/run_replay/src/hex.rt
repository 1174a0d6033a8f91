// Bytes in hexadecimal, lowest first, two digits each.
ghost use Rattle.std.specs.Prelude.{◌≤◌, ◌<◌};

// A digit's value; 0 for another byte.
fn digit(b: u8) -> u8
    ensures { result < 16 }
{
    match b {
        b'0'..=b'9' => b - b'0',
        b'a'..=b'f' => b - b'a' + 10,
        _ => 0,
    }
}

// Byte `k`; 0 past the last.
fn byte(s: &[u8], k: usize) -> u8 {
    if s.len() / 2 <= k {
        return 0;
    }
    16 * digit(s[2 * k]) + digit(s[2 * k + 1])
}

// The bytes from byte `k` on.
pub fn bytes<const N: usize>(s: &[u8], k: usize) -> [u8; N]
    requires { k ≤ 16777216 }
{
    let mut out = [0; N];
    for (i, b) in out.iter_mut().enumerate() {
        *b = byte(s, k + i);
    }
    out
}
