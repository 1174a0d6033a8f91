// The parts of a slice between separators: a file's lines, a line's fields, a field's parts.
ghost use Rattle.std.specs.Prelude.{◌≡◌, ℕ, drop};
ghost use Rattle.fields.specs.Parts.{place_of, head_of, tail_of, part_of, count_of, start_of};

// The place of the first `b`, or the length where there is none.
pub fn place(s: &[u8], b: u8) -> usize
    ensures { result ≡ place_of b s.now }
{
    for (i, x) in s.iter().enumerate() {
        if *x == b {
            return i;
        }
    }
    s.len()
}

// Where what follows the first `b` starts; the length where there is none.
pub fn start(s: &[u8], b: u8) -> usize
    ensures { result ≡ start_of b s.now }
{
    let p = place(s, b);
    let n = s.len();
    if p < n { p + 1 } else { n }
}

// The part before the first `b`.
pub fn head(s: &[u8], b: u8) -> &[u8]
    ensures { result.now ≡ head_of b s.now }
{
    let p = place(s, b);
    &s[..p]
}

// Part `k` of a slice, from 0; empty where there are fewer.
pub fn part(whole: &[u8], b: u8, k: usize) -> &[u8]
    ensures { result.now ≡ part_of b whole.now k }
{
    let mut s = whole;
    for i in 0..k {
        let a = start(s, b);
        s = &s[a..];
    }
    head(s, b)
}

// How many bytes of a slice are `b`.
pub fn count(s: &[u8], b: u8) -> usize
    ensures { result ≡ count_of b s.now }
{
    s.iter().filter(|x| **x == b).count()
}
