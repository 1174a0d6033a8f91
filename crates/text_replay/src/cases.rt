// One input, read, checked, printed and compared with a recorded answer.
ghost use Rattle.std.specs.Prelude.{◌≡◌, ◌≤◌, length};
ghost use Rattle.pcode.specs.Names.{eq_bytes};
ghost use Rattle.print.specs.Printing.{refusal_text};
ghost use Rattle.text_replay.specs.Answers.{checked_text, answer_text, page_room, Answered};

use pcode::block::{Block, Limits};
use pcode::refusal::Refusal;

fn refused(why: Refusal, out: &mut [u8]) -> usize
    requires { page_room ≤ length out.old }
    ensures { Answered (refusal_text why) out.old out.new result }
{
    print::print::refusal(why, out).unwrap_or(0)
}

// A block that was read, checked and printed.
fn checked(block: &Block, limits: Limits, out: &mut [u8]) -> usize
    requires { page_room ≤ length out.old }
    ensures { Answered (checked_text limits block.now) out.old out.new result }
{
    match checks::check::check(block, limits) {
        Ok(()) => print::print::print(block, out).unwrap_or(0),
        Err(why) => refused(why, out),
    }
}

// The block or the refusal, printed.
fn answer(input: &[u8], limits: Limits, out: &mut [u8]) -> usize
    requires { page_room ≤ length out.old }
    ensures { Answered (answer_text limits input.now) out.old out.new result }
{
    match text::read::read(input, limits.stmts) {
        Ok(r) => checked(&r.block, limits, out),
        Err(why) => refused(why, out),
    }
}

// Whether the answer to an input is the recorded one.
pub fn agrees(input: &[u8], want: &[u8], limits: Limits, out: &mut [u8]) -> bool
    requires { page_room ≤ length out.old }
    ensures { result ≡ eq_bytes (answer_text limits input.now) want.now }
{
    let n = answer(input, limits, out);
    &out[..n] == want
}
