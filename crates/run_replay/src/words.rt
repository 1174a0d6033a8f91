// A recorded case's texts as input and as the words of a trace.
ghost use Rattle.std.specs.Prelude.{◌≤◌, ◌≡◌, length};

use crate::hex;
use fields::decimal::decimal;
use fields::part::{head, part};
use vars::Vars;

// The number of a field; past every number where it has none.
pub fn number(s: &[u8]) -> u64 {
    decimal(s, 65535).unwrap_or(65536)
}

// The kind of the event that a line names.
fn kind(line: &[u8]) -> u64 {
    match line {
        [] | [_] => 0,
        [b'l', ..] => 1,
        [b's', ..] => 2,
        [b'm', ..] => 4,
        [_, b'x', ..] => 3,
        _ => 5,
    }
}

// Words put into lent room, as far as there is room.
#[derive(Drop)]
struct Words<'a> {
    room: &'a mut [u64],
    count: usize,
    ghost fits: { count ≤ length room.now },
}

impl Words<'_> {
    // One word more.
    fn put(&mut self, x: u64)
        ensures { length self.new.room.now ≡ length self.old.room.now }
    {
        let n = self.count;
        if n < self.room.len() {
            self.room[n] = x;
            self.count = n + 1;
        }
    }

    // The number in the 16 bytes from byte `k` on, as two words.
    fn put_number(&mut self, s: &[u8], k: usize)
        requires { k ≤ 4194304 }
        ensures { length self.new.room.now ≡ length self.old.room.now }
    {
        self.put(u64::from_le_bytes(hex::bytes(s, k)));
        self.put(u64::from_le_bytes(hex::bytes(s, k + 8)));
    }

    // Rows of 16 bytes, two words each, at most 112.
    fn put_rows(&mut self, s: &[u8])
        ensures { length self.new.room.now ≡ length self.old.room.now }
    {
        for i in 0..(s.len() / 32).min(112) {
            self.put_number(s, 16 * i);
        }
    }

    // The number and the operands' values of a load, a store or an exit.
    fn put_access(&mut self, line: &[u8])
        ensures { length self.new.room.now ≡ length self.old.room.now }
    {
        self.put(number(part(line, b'\t', 1)));
        self.put_number(part(line, b'\t', 2), 0);
        self.put_number(part(line, b'\t', 3), 0);
    }

    // One line's words.
    fn put_event(&mut self, line: &[u8])
        ensures { length self.new.room.now ≡ length self.old.room.now }
    {
        let k = kind(line);
        self.put(k);
        if 3 < k {
            self.put(0);
            self.put_rows(part(line, b'\t', 1));
            return;
        }
        self.put_access(line);
        if k == 3 {
            self.put_rows(part(line, b'\t', 4));
        }
    }
}

// The words of the events that a text lists.
pub fn events<'a>(text: &[u8], room: &'a mut [u64]) -> &'a [u64]
    ensures { length result.now ≤ length room.old }
{
    let mut words = Words { room, count: 0 };
    for line in text.split_inclusive(|b| *b == b'\n') {
        words.put_event(head(line, b'\n'));
    }
    let Words { room, count } = words;
    &room[..count]
}

// The words of the answers that a text lists, a line each.
pub fn answers<'a>(text: &[u8], room: &'a mut [u64]) -> &'a [u64]
    ensures { length result.now ≤ length room.old }
{
    let mut words = Words { room, count: 0 };
    for line in text.split_inclusive(|b| *b == b'\n') {
        words.put_number(head(line, b'\n'), 0);
    }
    let Words { room, count } = words;
    &room[..count]
}

// The row of the variable that a line names, where the block names it.
fn row_of(line: &[u8], vars: &Vars) -> Option<usize> {
    let id = record::operand::id(part(line, b'\t', 0))?;
    vars.held().iter().position(|x| *x == id)
}

// The state that a text gives to a block's variables.
pub fn start(text: &[u8], vars: &Vars) -> [[u8; 16]; 112] {
    let mut state = [[0; 16]; 112];
    for line in text.split_inclusive(|b| *b == b'\n') {
        let line = head(line, b'\n');
        match row_of(line, vars) {
            Some(row) if row < 112 => state[row] = hex::bytes(part(line, b'\t', 1), 0),
            _ => {}
        }
    }
    state
}
