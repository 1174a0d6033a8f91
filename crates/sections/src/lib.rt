// The sections of a recorded list: a header line `NAME LENGTH` and so many bytes each.
#![tactic(auto)]

ghost use Rattle.std.specs.Prelude.{◌+◌, ◌<◌, ◌≤◌, length, IfSome};
ghost use Rattle.std.specs.Iterator.{at_most};

pub mod tally; // tally.rt: how many answers agree

use fields::decimal::decimal;
use fields::part::place;

// A section: the first letter of its name, and its bytes.
#[derive(Clone, Copy)]
pub struct Section<'a> {
    pub name: u8,
    pub bytes: &'a [u8],
}

// The sections of what is left of a list; a bad header gives a last one, without a name and without bytes.
#[derive(Drop)]
pub struct Sections<'a>(pub &'a [u8]);

// The section at the beginning of a list, and what follows it.
fn split(list: &[u8]) -> Option<(Section<'_>, &[u8])>
    ensures { IfSome result (λ r. length r.1.now < length list.now) }
{
    let lf = place(list, b'\n');
    if list.len() <= lf {
        return None;
    }
    let blank = place(list, b' ');
    if lf <= blank {
        return None;
    }
    let size = decimal(&list[blank + 1..lf], 4194304)? as usize;
    let body = &list[lf + 1..];
    if body.len() < size {
        return None;
    }
    let section = Section {
        name: list[0],
        bytes: &body[..size],
    };
    Some((section, &body[size..]))
}

impl<'a> Iterator for Sections<'a> {
    type Item = Section<'a>;

    ghost remaining = { λ s. at_most (length s.0.now) };

    fn next(&mut self) -> Option<Section<'a>> {
        let list = self.0;
        if list.is_empty() {
            return None;
        }
        match split(list) {
            None => {
                self.0 = &[];
                Some(Section {
                    name: 0,
                    bytes: &[],
                })
            }
            Some((section, rest)) => {
                self.0 = rest;
                Some(section)
            }
        }
    }
}
