// Replays the recorded runs: runs each block from its start with its answers and prints how many traces and refusals are the recorded ones.
#![tactic(auto)]

mod hex; // hex.rt: bytes in hexadecimal
mod words; // words.rt: a case's texts as input and as words
mod cases; // cases.rt: one case, run and compared

use input::fill;
use sections::Sections;
use sections::tally::{Tally, room};
use std::io;

// The runs of a list: each section that is no block, start or answers is what is recorded of the run of those above it.
fn replay(list: &[u8], answers: &mut [u64], trace: &mut [u64], row: &mut [u64]) -> Tally {
    let mut tally = Tally::NONE;
    let mut block: &[u8] = &[];
    let mut start: &[u8] = &[];
    let mut given: &[u8] = &[];
    for s in Sections(list) {
        match s.name {
            b'b' => block = s.bytes,
            b's' => start = s.bytes,
            b'a' => given = s.bytes,
            _ => {
                let same = cases::agrees(block, start, given, s.bytes, answers, trace, row);
                tally = tally.with(same);
            }
        }
    }
    tally
}

fn main(rt: HostRuntime) -> io::Result<()> {
    let mut list = room();
    // the answers to 129 loads, and two traces
    let mut answers = [0u64; 258];
    let mut trace = [0u64; 29900];
    let mut row = [0u64; 29900];
    let n = fill(&mut rt.stdin(), &mut list)?;
    let tally = replay(&list[..n], &mut answers, &mut trace, &mut row);
    tally.show(&rt, b"runs: answers ")
}
