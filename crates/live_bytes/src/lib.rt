// Sets of a variable's bytes, by value.
#![tactic(auto)]

ghost use Rattle.std.specs.Prelude.{◌≡◌, Bool, not, ◌&&◌, ◌||◌, ℕ, ◌+◌, eqb};
ghost use Rattle.live_bytes.specs.Bytes.{has, inside, holds, some_byte, end_of, live_in};

use pcode::var::VarNode;

// Bit k of `set` says whether byte k is in.
#[derive(Clone, Copy, PartialEq, Eq)]
pub struct LiveBytes {
    pub set: u64,
}

// One past the last byte of a part of a variable, which has 16.
fn end_byte(var: VarNode) -> u64
    ensures { result ≡ end_of var }
{
    (u64::from(var.offset) + u64::from(var.size)).min(16)
}

// The bytes of a part of a variable.
fn bytes(var: VarNode) -> u64
    ensures { holds (inside var) result }
{
    let end = end_byte(var);
    let first = u64::from(var.offset).min(end);
    (1 << end) - (1 << first)
}

impl LiveBytes {
    pub const NONE: LiveBytes = LiveBytes { set: 0 };

    // The set with a variable's bytes added.
    pub fn add(self, var: VarNode) -> LiveBytes
        ensures { holds (λ k. inside var k || has self.set k) result.set }
    {
        LiveBytes {
            set: self.set | bytes(var),
        }
    }

    // The set with a variable's bytes removed.
    pub fn subtract(self, var: VarNode) -> LiveBytes
        ensures { holds (λ k. not (inside var k) && has self.set k) result.set }
    {
        LiveBytes {
            set: self.set & !bytes(var),
        }
    }

    pub fn any_set(self, var: VarNode) -> bool
        ensures { result ≡ some_byte (λ k. inside var k && has self.set k) }
    {
        self.set & bytes(var) != 0
    }

    pub fn empty(self) -> bool
        ensures { result ≡ eqb self.set 0 }
    {
        self == LiveBytes::NONE
    }
}

// Whether a write is live: of a variable that persists, a byte that is not among those written last; of any, one that is read.
pub fn is_live(persists: bool, last: LiveBytes, reads: LiveBytes, var: VarNode) -> bool
    ensures { result ≡ live_in persists last.set reads.set var }
{
    persists && last.add(var) != last || reads.any_set(var)
}
