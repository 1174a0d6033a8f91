// Ids, operands and outputs in the text form.
ghost use Rattle.std.specs.Prelude.{◌≡◌, ℕ, ◌<◌, ◌≤◌, ◌-◌, pos, negsuc, length};
ghost use Rattle.fields.specs.Decimals.{decimal_of};
ghost use Rattle.record.specs.Operands.{id_of, var_of, const_of, operand_of, output_of};

use fields::decimal::decimal;
use fields::part::{count, part};
use pcode::var::{Operand, Output, VarId, VarNode};

// The greatest offset and size.
const BYTE: u64 = 255;

// A decimal of one byte, at most `most`.
fn byte(s: &[u8], most: u64) -> Option<u8>
    requires { most < 256 }
    ensures { result ≡ decimal_of most s.now }
{
    Some(decimal(s, most)? as u8)
}

fn positive(v: u64) -> VarId
    requires { v < 32768 }
    ensures { result ≡ record { 0 = pos v } }
{
    VarId(v as i16)
}

// -v, for v from 1 on.
fn negative(v: u64) -> VarId
    requires { (0 < v) × (v ≤ 32768) }
    ensures { result ≡ record { 0 = negsuc (v - 1) } }
{
    VarId(-1 - ((v - 1) as i16))
}

// An id: 16 bits, no `-0`.
pub fn id(s: &[u8]) -> Option<VarId>
    ensures { result ≡ id_of s.now }
{
    if s.len() == 0 {
        return None;
    }
    if s[0] == b'-' {
        let v = decimal(&s[1..], 32768)?;
        if v == 0 {
            return None;
        }
        return Some(negative(v));
    }
    let v = decimal(s, 32767)?;
    Some(positive(v))
}

// `id:offset:size`.
fn variable(s: &[u8]) -> Option<VarNode>
    ensures { result ≡ var_of s.now }
{
    if count(s, b':') != 2 {
        return None;
    }
    let v = id(part(s, b':', 0))?;
    let offset = byte(part(s, b':', 1), BYTE)?;
    let size = byte(part(s, b':', 2), BYTE)?;
    Some(VarNode {
        id: v,
        offset,
        size,
    })
}

// `value:size`; the value stays as written.
fn constant(s: &[u8]) -> Option<Operand>
    ensures { result ≡ const_of s.now }
{
    if count(s, b':') != 1 {
        return None;
    }
    let v = decimal(part(s, b':', 0), u64::MAX)?;
    let size = byte(part(s, b':', 1), BYTE)?;
    Some(Operand::Const(v, size))
}

// `-`, `v` and a variable, or `c` and a constant.
pub fn operand(s: &[u8]) -> Option<Operand>
    ensures { result ≡ operand_of s.now }
{
    if s.len() == 0 {
        return None;
    }
    match s[0] {
        b'v' => Some(Operand::Var(variable(&s[1..])?)),
        b'c' => constant(&s[1..]),
        b'-' if s.len() == 1 => Some(Operand::None),
        _ => None,
    }
}

// An output is `-` or a variable.
pub fn output(s: &[u8]) -> Option<Output>
    ensures { result ≡ output_of s.now }
{
    match operand(s)? {
        Operand::None => Some(None),
        Operand::Const(_, _) => None,
        Operand::Var(v) => Some(Some(v)),
    }
}
