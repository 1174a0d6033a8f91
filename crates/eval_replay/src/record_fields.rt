// The fields of a record, parted by tabs, and the numbers in them.
ghost use Rattle.std.specs.Prelude.{◌≤◌, ◌<◌, length};

// Field k of a record; empty where there are fewer.
pub fn field(s: &[u8], k: usize) -> &[u8] {
    s.split(|b| *b == b'\t').nth(k).unwrap_or(&[])
}

// A digit's value; 0 for another byte.
fn digit(b: u8) -> u64
    ensures { result < 10 }
{
    match b {
        b'0'..=b'9' => u64::from(b - b'0'),
        _ => 0,
    }
}

// The decimal number that stands in `s`, as far as it is below a thousand million million.
pub fn number(s: &[u8]) -> u64
    ensures { result < 10000000000000000 }
{
    let mut n: u64 = 0;
    for b in s {
        n = n % 1000000000000000 * 10 + digit(*b);
    }
    n
}

// The numbers that stand in `s`, parted by commas, into `row`, as far as it goes; `-` stands for none. How many there were.
pub fn numbers(s: &[u8], row: &mut [u64]) -> usize
    ensures { result ≤ length row.old }
{
    let mut n = 0;
    for part in s.split_inclusive(|b| *b == b',') {
        if part.starts_with(b"-") || row.len() <= n {
            return n;
        }
        row[n] = number(part.strip_suffix(b",").unwrap_or(part));
        n += 1;
    }
    n
}
