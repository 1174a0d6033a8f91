// The block program: standard input through both passes to standard output.
#![tactic(auto)]

ghost use Rattle.std.specs.Prelude.{◌+◌, ◌≤◌, ◌<◌, ◌≡◌, length, take, OnOk, IfSome};
ghost use Rattle.std.specs.Io.KnownBytes.{Appends};
ghost use Rattle.print.specs.Rooms.{block_room};
ghost use Rattle.print.specs.Texts.{written};
ghost use Rattle.front.specs.Front.{input_room, answer_of};
ghost use Rattle.front.specs.declared.Pass.TheVariants.{Both};

use front::{Pass, treat};
use input::fill;
use std::io;
use std::io::{Read, Write};

// Room for the bytes that decide every answer: `beginning_decides` of crates/front.
fn room() -> [u8; 32768]
    ensures { (32768 ≡ length result) × (input_room Both ≤ length result) }
{
    [0u8; 32768]
}

// Room for the largest result: `page_suffices` of crates/front.
fn page() -> [u8; 16384]
    ensures { (16384 ≡ length result) × (block_room ≤ length result) }
{
    [0u8; 16384]
}

// The answer's text at the start of the page, and its length.
fn answer(input: &[u8], out: &mut [u8]) -> usize
    requires { block_room ≤ length out.old }
    ensures { (result ≡ length (answer_of Both input.now).text) × (out.new ≡ written out.old 0 (answer_of Both input.now).text) }
{
    treat(Pass::Both, input, out).unwrap_or(0)
}

// The first `n` bytes of the page.
fn show<W: Write>(to: &mut W, out: &[u8], n: usize) -> io::Result<()>
    ensures { OnOk result (n ≤ length out.now → Appends (W.contents to.old) (W.contents to.new) (take n out.now)) }
{
    if out.len() < n {
        return Ok(());
    }
    to.write_all(&out[..n])
}

// The text that answers all that `from` gives goes to `to`, and nothing else, unless a read or a write fails.
fn run<R: Read, W: Write>(from: &mut R, to: &mut W) -> io::Result<()>
    ensures { OnOk result (IfSome (R.remaining from.old) (λ bytes. Appends (W.contents to.old) (W.contents to.new) (answer_of Both bytes).text)) }
{
    let mut input = room();
    let mut out = page();
    let n = fill(from, &mut input)?;
    let k = answer(&input[..n], &mut out);
    show(to, &out, k)
}

fn main(rt: HostRuntime) -> io::Result<()> {
    run(&mut rt.stdin(), &mut rt.stdout())
}
