// Replays the recorded list of texts: reads, checks and prints each input, and prints how many answers are, byte for byte, the recorded ones.
#![tactic(auto)]

ghost use Rattle.std.specs.Prelude.{◌≤◌, length};
ghost use Rattle.text_replay.specs.Answers.{page_room};

mod cases; // cases.rt: one input, read, checked, printed and compared

use input::fill;
use pcode::block::Limits;
use sections::Sections;
use sections::tally::{Tally, page, room};
use std::io;

// The answers in the sections with that first letter, each to the input above it, within these limits.
fn replay(list: &[u8], letter: u8, limits: Limits, out: &mut [u8]) -> Tally
    requires { page_room ≤ length out.old }
{
    let mut tally = Tally::NONE;
    let mut input: &[u8] = &[];
    for s in Sections(list) {
        if s.name == letter {
            tally = tally.with(cases::agrees(input, s.bytes, limits, out));
            input = &[];
        } else if s.name == b'i' {
            input = s.bytes;
        }
    }
    tally
}

fn main(rt: HostRuntime) -> io::Result<()> {
    let mut list = room();
    let mut out = page();
    let n = fill(&mut rt.stdin(), &mut list)?;
    let read = replay(&list[..n], b'r', Limits::FIRST, &mut out);
    read.show(&rt, b"read: answers ")?;
    let wide = replay(&list[..n], b'w', Limits::SECOND, &mut out);
    wide.show(&rt, b"wide: answers ")
}
