// Replays the recorded list of blocks: treats each input and prints how many answers are, byte for byte, the recorded ones.
#![tactic(auto)]

mod cases; // cases.rt: one input, treated and compared

use front::Pass;
use input::fill;
use sections::Sections;
use sections::tally::{Tally, page, room};
use std::io;

// The passes whose recorded answers have that first letter.
fn pass_of(letter: u8) -> Pass {
    match letter {
        b'f' => Pass::First,
        b's' => Pass::Second,
        _ => Pass::Both,
    }
}

// The answers in the sections with that first letter, each to the input above it.
fn replay(list: &[u8], letter: u8, out: &mut [u8]) -> Tally {
    let pass = pass_of(letter);
    let mut tally = Tally::NONE;
    let mut input: &[u8] = &[];
    for s in Sections(list) {
        if s.name == letter {
            tally = tally.with(cases::agrees(pass, input, s.bytes, out));
            input = &[];
        } else if s.name == b'i' {
            input = s.bytes;
        }
    }
    tally
}

fn main(rt: HostRuntime) -> io::Result<()> {
    let mut list = room();
    let mut out = page();
    let n = fill(&mut rt.stdin(), &mut list)?;
    let first = replay(&list[..n], b'f', &mut out);
    first.show(&rt, b"first pass: answers ")?;
    let second = replay(&list[..n], b's', &mut out);
    second.show(&rt, b"second pass: answers ")?;
    let both = replay(&list[..n], b'b', &mut out);
    both.show(&rt, b"both passes: answers ")
}
