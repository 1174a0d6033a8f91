// The static library: the passes for callers in C or Rust, on block files in text form and numbers.
#![tactic(auto)]

ghost use Rattle.std.specs.Prelude.{◌≡◌, Ok};
ghost use Rattle.pcode.specs.Refusals.{refusal_number, refusal_place};
ghost use Rattle.text.specs.Reading.{read_of};
ghost use Rattle.front.specs.Front.{limit_of, treat_of, end_of};
ghost use Rattle.quargnil.specs.Answers.{Answers, pass_of, read_or_empty, count_of, repeated_of};

use front::{Pass, limit, treat_block, treat_bytes};
use pcode::block::{Block, Marks};
use pcode::refusal::Refusal;
use print::print::{BLOCK, print};
use text::answer::Read;
use text::read::read;

// What is answered where `out` is too small: a number, for callers in C.
const NO_ROOM: u64 = 255;

// A treated block: its text, and how long that is.
fn shown(block: &Block, out: &mut [u8], detail: &mut u64) -> u64
    ensures { Answers (Ok block.now) out.old out.new detail.new result }
{
    match print(block, out) {
        None => {
            *detail = BLOCK as u64;
            NO_ROOM
        }
        Some(n) => {
            *detail = n as u64;
            0
        }
    }
}

// 01's number of a refusal, and its place.
fn refused(why: Refusal, detail: &mut u64) -> u64
    ensures { (result ≡ refusal_number why) × (detail.new ≡ refusal_place why) }
{
    *detail = why.place() as u64;
    why.number() as u64
}

fn answer(pass: Pass, input: &[u8], out: &mut [u8], detail: &mut u64) -> u64
    ensures { Answers (end_of pass input.now) out.old out.new detail.new result }
{
    match treat_bytes(pass, input) {
        Ok(block) => shown(&block, out, detail),
        Err(r) => refused(r.why, detail),
    }
}

// The first pass on a block file. 0: `out` begins with the treated block's text of `detail` bytes; 255: `out` is too small, and
// `detail` bytes are enough for every block; else 01's number of a refusal, with its place in `detail`, and `out` as it was.
#[unsafe(no_mangle)]
pub extern "C" fn quargnil_first(input: &[u8], out: &mut [u8], detail: &mut u64) -> u64
    ensures { Answers (end_of Pass.First input.now) out.old out.new detail.new result }
{
    answer(Pass::First, input, out, detail)
}

// The second pass alone, with its own limits; it answers as the first does.
#[unsafe(no_mangle)]
pub extern "C" fn quargnil_second(input: &[u8], out: &mut [u8], detail: &mut u64) -> u64
    ensures { Answers (end_of Pass.Second input.now) out.old out.new detail.new result }
{
    answer(Pass::Second, input, out, detail)
}

// Both passes.
#[unsafe(no_mangle)]
pub extern "C" fn quargnil_both(input: &[u8], out: &mut [u8], detail: &mut u64) -> u64
    ensures { Answers (end_of Pass.Both input.now) out.old out.new detail.new result }
{
    answer(Pass::Both, input, out, detail)
}

// 1: the first pass; 2: the second; any other number: both.
fn pass_of(number: u8) -> Pass
    ensures { result ≡ pass_of number }
{
    match number {
        1 => Pass::First,
        2 => Pass::Second,
        _ => Pass::Both,
    }
}

// How many statements a treated block has; a refusal counts those of the block given.
fn count(pass: Pass, block: &Block, marks: Marks) -> usize
    ensures { result ≡ count_of (treat_of pass block.now marks) block.now }
{
    match treat_block(pass, block, marks) {
        Ok(out) => out.count,
        Err(_) => block.count,
    }
}

// A pass on the same block again and again; the result's count of statements.
fn again(pass: Pass, block: &Block, marks: Marks, times: u32) -> usize
    ensures { result ≡ repeated_of times (count_of (treat_of pass block.now marks) block.now) }
{
    let mut last = 0;
    for _ in 0..times {
        last = count(pass, block, marks);
    }
    last
}

// What was read; nothing, where reading was refused.
fn read_or_empty(pass: Pass, input: &[u8]) -> Read
    ensures { result ≡ read_or_empty (read_of (limit_of pass) input.now) }
{
    match read(input, limit(pass)) {
        Ok(r) => r,
        Err(_) => Read::new(),
    }
}

// For measuring: reads a block once and treats it `times` times; answers how many statements the result has.
#[unsafe(no_mangle)]
pub extern "C" fn quargnil_repeat(pass: u8, input: &[u8], times: u32) -> u64
    ensures { let r = read_or_empty (read_of (limit_of (pass_of pass)) input.now) in result ≡ repeated_of times (count_of (treat_of (pass_of pass) r.block r.marks) r.block) }
{
    let p = pass_of(pass);
    let r = read_or_empty(p, input);
    again(p, &r.block, r.marks, times) as u64
}
