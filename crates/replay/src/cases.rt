// One input, treated, printed and compared with a recorded answer.

use front::{Pass, treat};

// Whether the answer to an input is the recorded one.
pub fn agrees(pass: Pass, input: &[u8], want: &[u8], out: &mut [u8]) -> bool {
    let n = treat(pass, input, out).unwrap_or(0);
    n <= out.len() && &out[..n] == want
}
