// Printing records, blocks and refusals.
ghost use Rattle.std.specs.Prelude.{◌≡◌, ℕ, ◌+◌, ◌*◌, ◌<◌, ◌≤◌, length, take};
ghost use Rattle.pcode.specs.Block.{held};
ghost use Rattle.print.specs.Rooms.{op_room, operands_room, record_room, refusal_room};
ghost use Rattle.print.specs.Texts.{Wrote};
ghost use Rattle.print.specs.Printing.{op_text, operands_text, record_text, printed, refusal_text, Print};

use crate::put::{byte, copy, decimal, name, number, operand};
use pcode::block::{Block, Stmt};
use pcode::op::Op;
use pcode::refusal::Refusal;
use pcode::var::Operand;

// The room that a record is given, with its LF.
pub const RECORD: usize = 106;

// The room for the largest result.
pub const BLOCK: usize = 13674;

// The room for a refusal's line.
pub const REFUSAL: usize = 32;

// Operation and number, each with its tab.
fn op_fields(out: &mut [u8], at: usize, op: Op) -> usize
    requires { at + op_room ≤ length out.old }
    ensures { Wrote op_room out.old at (op_text op) out.new result }
{
    let a = name(out, at, op.code());
    let b = byte(out, a, b'\t');
    let c = number(out, b, op);
    byte(out, c, b'\t')
}

// Output, first and second, parted by tabs, and the LF.
fn operand_fields(out: &mut [u8], at: usize, o: Operand, x: Operand, y: Operand) -> usize
    requires { at + operands_room ≤ length out.old }
    ensures { Wrote operands_room out.old at (operands_text o x y) out.new result }
{
    let a = operand(out, at, o);
    let b = byte(out, a, b'\t');
    let c = operand(out, b, x);
    let d = byte(out, c, b'\t');
    let e = operand(out, d, y);
    byte(out, e, b'\n')
}

// One record and its LF.
fn record(out: &mut [u8], at: usize, s: Stmt) -> usize
    requires { at + record_room ≤ length out.old }
    ensures { Wrote record_room out.old at (record_text s) out.new result }
{
    let a = op_fields(out, at, s.op);
    operand_fields(out, a, Operand::from(s.output), s.first, s.second)
}

// The records of some statements, one after another.
fn records(out: &mut [u8], stmts: &[Stmt]) -> usize
    requires { record_room * length stmts.now ≤ length out.old }
    ensures { Wrote (record_room * length stmts.now) out.old 0 (printed stmts.now) out.new result }
{
    let mut at: usize = 0;
    for s in stmts {
        at = record(out, at, *s);
    }
    at
}

// A block's records, one a line; none where the buffer has no room.
pub fn print(block: &Block, out: &mut [u8]) -> Option<usize>
    ensures { Print (record_room * length (held block.now)) (printed (held block.now)) out.old out.new result }
{
    let stmts = block.held();
    if out.len() < RECORD * stmts.len() {
        return None;
    }
    Some(records(out, stmts))
}

// `refused`, tab, number, tab, place; none where the buffer has no room.
pub fn refusal(why: Refusal, out: &mut [u8]) -> Option<usize>
    ensures { Print refusal_room (refusal_text why) out.old out.new result }
{
    if out.len() < REFUSAL {
        return None;
    }
    let a = copy(out, 0, b"refused");
    let b = byte(out, a, b'\t');
    let c = decimal(out, b, why.number() as u64, 2);
    let d = byte(out, c, b'\t');
    let e = decimal(out, d, why.place() as u64, 20);
    Some(byte(out, e, b'\n'))
}
