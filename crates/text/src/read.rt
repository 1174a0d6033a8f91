// Reading a file: a line at a time, up to the first refusal.
ghost use Rattle.std.specs.Prelude.{◌≡◌, ℕ};
ghost use Rattle.std.specs.Iterator.{YieldsFirstRef, item_count};
ghost use Rattle.text.specs.Reading.{room_of, lines_of, read_of};

use crate::answer::Read;
use fields::part::head;
use pcode::refusal::Refusal;
use record::record::parse;

// How many statements fit: at most as many as a block holds.
pub fn room(limit: usize) -> usize
    ensures { result ≡ room_of limit }
{
    limit.min(129)
}

// The lines of what is left of a file, each without its LF; the last may lack one.
#[derive(Drop)]
struct Lines<'a>(&'a [u8]);

impl<'a> Iterator for Lines<'a> {
    type Item = &'a [u8];

    ghost next_gives = { YieldsFirstRef (λ s. lines_of s.0.now) };

    ghost remaining = { item_count (λ s. lines_of s.0.now) };

    fn next(&mut self) -> Option<&'a [u8]> {
        let left = self.0;
        if left.is_empty() {
            return None;
        }
        let text = head(left, b'\n');
        self.0 = &left[(text.len() + 1).min(left.len())..];
        Some(text)
    }
}

// Reads a file, with at most `limit` statements.
pub fn read(bytes: &[u8], limit: usize) -> Result<Read, Refusal>
    ensures { result ≡ read_of limit bytes.now }
{
    let most = room(limit);
    let mut so_far = Read::new();
    let mut line: usize = 1;
    for text in Lines(bytes) {
        so_far.accept(parse(text), line, most)?;
        line += 1;
    }
    Ok(so_far)
}
