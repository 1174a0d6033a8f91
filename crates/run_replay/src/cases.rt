// One recorded case: its block, run, and the run's trace or refusal, compared.

use crate::words;
use fields::part::{head, part};
use pcode::block::Limits;
use pcode::refusal::Refusal;
use run::outcome::Stop;
use run::run::run;
use text::answer::Read;

// Whether a text is the refusal.
fn is_refusal(want: &[u8], why: Refusal) -> bool {
    let line = head(want, b'\n');
    words::number(part(line, b'\t', 1)) == u64::from(why.number())
        && words::number(part(line, b'\t', 2)) == why.place() as u64
}

// The run of a block that was read.
fn ran(
    r: Read,
    start: &[u8],
    answers: &[u64],
    want: &[u8],
    trace: &mut [u64],
    row: &mut [u64],
) -> bool {
    let named = vars::named(r.block.held(), Limits::SECOND.vars);
    let state = words::start(start, &named.vars);
    match run(&r.block, r.marks, state, answers, trace) {
        Ok(_) => trace.starts_with(words::events(want, row)),
        Err(Stop::Refused(why)) => is_refusal(want, why),
        Err(Stop::NoRoom) => false,
    }
}

// Whether a block's run is as recorded.
pub fn agrees(
    input: &[u8],
    start: &[u8],
    answers: &[u8],
    want: &[u8],
    list: &mut [u64],
    trace: &mut [u64],
    row: &mut [u64],
) -> bool {
    match text::read::read(input, 129) {
        Ok(r) => ran(r, start, words::answers(answers, list), want, trace, row),
        Err(why) => is_refusal(want, why),
    }
}
