// Evaluates each operation of a recorded list and prints how many answers agree with the recorded ones.
#![tactic(auto)]

ghost use Rattle.std.specs.Prelude.{◌≡◌, length};

mod record_fields; // record_fields.rt: the fields of a record
mod cases; // cases.rt: one record, evaluated and compared

use input::fill;
use sections::tally::{Tally, room};
use std::io;

// One operand's bits.
fn row() -> [u64; 128]
    ensures { 128 ≡ length result }
{
    [0u64; 128]
}

fn replay(list: &[u8], a: &mut [u64], b: &mut [u64], out: &mut [u64], want: &mut [u64]) -> Tally {
    let mut tally = Tally::NONE;
    for line in list.split_inclusive(|b| *b == b'\n') {
        let record = line.strip_suffix(b"\n").unwrap_or(line);
        tally = tally.with(cases::agrees(record, a, b, out, want));
    }
    tally
}

fn main(rt: HostRuntime) -> io::Result<()> {
    let mut list = room();
    let mut a = row();
    let mut b = row();
    let mut out = row();
    let mut want = row();
    let n = fill(&mut rt.stdin(), &mut list)?;
    let tally = replay(&list[..n], &mut a, &mut b, &mut out, &mut want);
    tally.show(&rt, b"records ")
}
