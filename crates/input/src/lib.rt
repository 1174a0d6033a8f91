// What a program reads: a lent slice, filled from a stream.
#![tactic(auto)]

ghost use Rattle.std.specs.Prelude.{◌<◌, ◌≤◌, length, take, IfOk};
ghost use Rattle.std.specs.Io.KnownBytes.{Consumes, IsAtEnd};

use std::io;
use std::io::Read;

// Reads until `list` is full or the input ends. How many bytes stand at its start.
pub fn fill<R: Read>(input: &mut R, list: &mut [u8]) -> io::Result<usize>
    ensures fits { IfOk result (λ n. n ≤ length list.new) }
    ensures bytes { IfOk result (λ n. Consumes (R.remaining input.old) (R.remaining input.new) (take n list.new)) }
    ensures end { IfOk result (λ n. n < length list.new → IsAtEnd (R.remaining input.new)) }
{
    let mut done = 0;
    // A `while`, since each read gives as many bytes as it will: there is nothing to go over one by one.
    while done < list.len() {
        let n = input.read(&mut list[done..])?;
        if n == 0 {
            return Ok(done);
        }
        done += n;
    }
    Ok(done)
}
