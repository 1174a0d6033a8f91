// What a replay of a recorded list prints, how many answers there were and how many agreed, and the room that it takes.
ghost use Rattle.std.specs.Prelude.{◌+◌, ◌≡◌, ◌%◌, ◌^◌, length};
ghost use Rattle.pcode.specs.Var.{pick};

use std::io;

// How many answers there were, and how many agreed.
#[derive(Clone, Copy)]
pub struct Tally {
    pub answers: u64,
    pub agree: u64,
}

impl Tally {
    pub const NONE: Tally = Tally {
        answers: 0,
        agree: 0,
    };

    // One answer more, which agrees or does not.
    pub fn with(self, same: bool) -> Tally
        ensures counted { result.answers ≡ (self.answers + 1) % 2 ^ 64 }
        ensures agreed { result.agree ≡ (self.agree + pick same 1 0) % 2 ^ 64 }
    {
        Tally {
            answers: self.answers.wrapping_add(1),
            agree: self.agree.wrapping_add(u64::from(same)),
        }
    }

    // One line: the title, which ends where the first count stands, and the counts.
    pub fn show(self, rt: &impl Print, title: &[u8]) -> io::Result<()> {
        rt.write_all(title)?;
        let answers = self.answers;
        let agree = self.agree;
        println!(rt; "{answers}, agree {agree}")
    }
}

// Room for a whole list.
pub fn room() -> [u8; 4194304]
    ensures { 4194304 ≡ length result }
{
    [0u8; 4194304]
}

// Room for a printed block.
pub fn page() -> [u8; 16384]
    ensures { 16384 ≡ length result }
{
    [0u8; 16384]
}
