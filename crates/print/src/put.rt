// Writing the parts of a record at a place of a lent buffer; each answers the place after them.
// Buffer and place are arguments: with a struct of both the parts prove, but not what the buffer holds at the end, since a method may lend another in its place.
ghost use Rattle.std.specs.Prelude.{◌≡◌, List, [], ◌∷◌, ℕ, ◌+◌, ◌<◌, ◌≤◌, length};
ghost use Rattle.pcode.specs.Names.{name_of, number_of};
ghost use Rattle.print.specs.Rooms.{name_room, number_room, id_room, const_room, var_room, operand_room};
ghost use Rattle.print.specs.Texts.{Wrote, digits_text, id_text, number_text, const_text, var_text, operand_text};

use pcode::op::Op;
use pcode::var::{Operand, VarId, VarNode};

// One byte.
pub fn byte(out: &mut [u8], at: usize, b: u8) -> usize
    requires { at + 1 ≤ length out.old }
    ensures { Wrote 1 out.old at (b ∷ []) out.new result }
{
    out[at] = b;
    at + 1
}

fn digit(v: u64) -> u8
    requires { v < 10 }
    ensures { result ≡ 48 + v }
{
    48 + (v as u8)
}

// A number in decimal, at most `most` digits.
pub fn decimal(out: &mut [u8], at: usize, v: u64, most: usize) -> usize
    requires { at + most ≤ length out.old }
    ensures { Wrote most out.old at (digits_text most v) out.new result }
{
    if most == 0 {
        return at;
    }
    if v < 10 {
        return byte(out, at, digit(v));
    }
    let p = decimal(out, at, v / 10, most - 1);
    byte(out, p, digit(v % 10))
}

// A row of bytes. A loop, as bit_vec's `copy`: std's `copy_from_slice` takes `memmove` from C.
pub fn copy(out: &mut [u8], at: usize, s: &[u8]) -> usize
    requires { at + length s.now ≤ length out.old }
    ensures { Wrote (length s.now) out.old at s.now out.new result }
{
    for (i, b) in s.iter().enumerate() {
        out[at + i] = *b;
    }
    at + s.len()
}

// The name with that code.
pub fn name(out: &mut [u8], at: usize, code: usize) -> usize
    requires { at + name_room ≤ length out.old }
    ensures { Wrote name_room out.old at (name_of code) out.new result }
{
    copy(out, at, pcode::name::name(code))
}

// An operation's number, or `-`.
pub fn number(out: &mut [u8], at: usize, op: Op) -> usize
    requires { at + number_room ≤ length out.old }
    ensures { Wrote number_room out.old at (number_text (number_of op)) out.new result }
{
    match op.number() {
        None => byte(out, at, b'-'),
        Some(n) => decimal(out, at, n as u64, 5),
    }
}

fn id(out: &mut [u8], at: usize, v: VarId) -> usize
    requires { at + id_room ≤ length out.old }
    ensures { Wrote id_room out.old at (id_text v.0) out.new result }
{
    let m = v.0.unsigned_abs() as u64;
    if v < VarId(0) {
        let p = byte(out, at, b'-');
        return decimal(out, p, m, 5);
    }
    decimal(out, at, m, 5)
}

fn constant(out: &mut [u8], at: usize, v: u64, n: u8) -> usize
    requires { at + const_room ≤ length out.old }
    ensures { Wrote const_room out.old at (const_text v n) out.new result }
{
    let p = byte(out, at, b'c');
    let q = decimal(out, p, v, 20);
    let r = byte(out, q, b':');
    decimal(out, r, n as u64, 3)
}

fn variable(out: &mut [u8], at: usize, v: VarNode) -> usize
    requires { at + var_room ≤ length out.old }
    ensures { Wrote var_room out.old at (var_text v) out.new result }
{
    let p = byte(out, at, b'v');
    let q = id(out, p, v.id);
    let r = byte(out, q, b':');
    let s = decimal(out, r, v.offset as u64, 3);
    let t = byte(out, s, b':');
    decimal(out, t, v.size as u64, 3)
}

// An operand, or `-`.
pub fn operand(out: &mut [u8], at: usize, a: Operand) -> usize
    requires { at + operand_room ≤ length out.old }
    ensures { Wrote operand_room out.old at (operand_text a) out.new result }
{
    match a {
        Operand::None => byte(out, at, b'-'),
        Operand::Const(v, n) => constant(out, at, v, n),
        Operand::Var(v) => variable(out, at, v),
    }
}
