// Records: marks and statements. Whether a record may stand where it does is the reader's affair.
ghost use Rattle.std.specs.Prelude.{◌≡◌, ℕ, ◌<◌};
ghost use Rattle.record.specs.Records.{number_in, mark_of, statement_of, record_of};

use crate::name::code;
use crate::operand::{id, operand, output};
use fields::decimal::decimal;
use fields::part::{count, part};
use pcode::block::Stmt;
use pcode::name::takes_number;
use pcode::op::Op;
use pcode::var::VarId;

#[derive(Clone, Copy)]
pub enum Record {
    Mark(VarId),
    Statement(Stmt),
}

// The most bytes of a line before its LF.
pub const LINE: usize = 200;

// The number field of the operation with that code: a number just where the operation has one, `-` else.
fn number(code: usize, s: &[u8]) -> Option<u16>
    ensures { result ≡ number_in code s.now }
{
    if takes_number(code) {
        return Some(decimal(s, 65535)? as u16);
    }
    if s == b"-".as_slice() { Some(0) } else { None }
}

// `temporary`, tab, id from 1 to 32767.
fn mark(line: &[u8]) -> Option<Record>
    ensures { result ≡ mark_of line.now }
{
    if part(line, b'\t', 0) != b"temporary".as_slice() {
        return None;
    }
    let v = id(part(line, b'\t', 1))?;
    if VarId(0) < v {
        Some(Record::Mark(v))
    } else {
        None
    }
}

// Operation, number, output, first, second.
fn statement(line: &[u8]) -> Option<Record>
    ensures { result ≡ statement_of line.now }
{
    let k = code(part(line, b'\t', 0))?;
    let n = number(k, part(line, b'\t', 1))?;
    let o = output(part(line, b'\t', 2))?;
    let a = operand(part(line, b'\t', 3))?;
    let b = operand(part(line, b'\t', 4))?;
    Some(Record::Statement(Stmt::new(Op::named(k, n), o, a, b)))
}

// What one line is, without its LF.
pub fn parse(line: &[u8]) -> Option<Record>
    ensures { result ≡ record_of line.now }
{
    if LINE < line.len() {
        return None;
    }
    match count(line, b'\t') {
        1 => mark(line),
        4 => statement(line),
        _ => None,
    }
}
