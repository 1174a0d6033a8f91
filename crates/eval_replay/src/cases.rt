// One record of the list: its operation, evaluated, and its answer, compared.
ghost use Rattle.std.specs.Prelude.{◌≤◌, length};

use crate::record_fields::{field, number, numbers};
use eval::EvalError;
use pcode::name::name;
use pcode::op::Op;

// The code of the operation with that name; past the last where there is none.
fn code_of(s: &[u8]) -> usize {
    (0..72).find(|code| name(*code) == s).unwrap_or(72)
}

// The operation that a record names.
fn operation(record: &[u8]) -> Op {
    let code = code_of(field(record, 0));
    let n = number(field(record, 1)) % 65536;
    Op::named(code, n as u16)
}

// How many bits the record's output has.
fn width(record: &[u8]) -> usize
    ensures { result ≤ 2040 }
{
    let bytes = number(field(record, 2)) % 256;
    8 * (bytes as usize)
}

// The output that stood before goes in, the operation's answer comes out.
fn evaluated(
    record: &[u8],
    a: &mut [u64],
    b: &mut [u64],
    out: &mut [u64],
) -> Result<(), EvalError> {
    let first = numbers(field(record, 3), a);
    let second = numbers(field(record, 4), b);
    numbers(field(record, 6), out);
    eval::eval(operation(record), &a[..first], &b[..second], out)
}

// Whether the record's operation gives the record's answer: a refusal, or the output's bits.
pub fn agrees(
    record: &[u8],
    a: &mut [u64],
    b: &mut [u64],
    out: &mut [u64],
    want: &mut [u64],
) -> bool {
    let n = width(record).min(out.len());
    let answer = evaluated(record, a, b, &mut out[..n]);
    let wanted = field(record, 5);
    if wanted.first() == Some(&b'r') {
        return answer == Err(EvalError::RotateTooFar);
    }
    let m = numbers(wanted, want);
    answer.is_ok() && out[..n] == want[..m]
}
