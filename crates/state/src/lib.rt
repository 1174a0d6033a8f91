// The machine state: 112 rows of 16 bytes, by value. A part of a row is read as a number and written from one.
#![tactic(auto)]

ghost use Rattle.std.specs.Prelude.{◌≡◌, ℕ, ◌+◌, ◌<◌, ◌≤◌, length, take, drop};
ghost use Rattle.std.proofs.Math.Seq.{paste};
ghost use Rattle.wide.specs.Value.{value_of};
ghost use Rattle.state.specs.Bytes.{num_of, bytes_of, read_of, write_of};

use wide::Wide;

// A row: a variable's bytes.
pub type Row = [u8; 16];

// The rows of a machine, by value.
pub type State = [Row; 112];

// The number that up to eight bytes stand for, lowest first.
fn half(part: &[u8]) -> u64
    requires { length part.now ≤ 8 }
    ensures { result ≡ num_of part.now }
{
    let mut bytes = [0; 8];
    bytes[..part.len()].copy_from_slice(part);
    u64::from_le_bytes(bytes)
}

// The number in a part of a row.
pub fn number(row: Row, offset: usize, size: usize) -> Wide
    requires { offset + size ≤ 16 }
    ensures { value_of result ≡ num_of (take size (drop offset row)) }
{
    let part = &row[offset..offset + size];
    let middle = size.min(8);
    Wide {
        lo: half(&part[..middle]),
        hi: half(&part[middle..]),
    }
}

// A number's sixteen bytes.
pub fn bytes(v: Wide) -> Row
    ensures { result ≡ bytes_of 16 (value_of v) }
{
    let mut out = [0; 16];
    out[..8].copy_from_slice(&v.lo.to_le_bytes());
    out[8..].copy_from_slice(&v.hi.to_le_bytes());
    out
}

// `old` with `size` bytes from `offset` on replaced by the first of `new`.
fn splice(old: Row, offset: usize, size: usize, new: Row) -> Row
    requires { offset + size ≤ 16 }
    ensures { result ≡ paste old offset new size }
{
    let mut out = old;
    out[offset..offset + size].copy_from_slice(&new[..size]);
    out
}

// The number in a part of a row of the state.
pub fn read(state: State, row: usize, offset: usize, size: usize) -> Wide
    requires { (row < 112) × (offset + size ≤ 16) }
    ensures { value_of result ≡ read_of state row offset size }
{
    number(state[row], offset, size)
}

// The state with part of one row replaced: every other row, and the row's other bytes, stay.
pub fn write(state: State, row: usize, offset: usize, size: usize, v: Wide) -> State
    requires { (row < 112) × (offset + size ≤ 16) }
    ensures { result ≡ write_of state row offset size (value_of v) }
{
    let mut out = state;
    out[row] = splice(out[row], offset, size, bytes(v));
    out
}
