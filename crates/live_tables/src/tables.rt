// Tables with a set of bytes, or a flag, for each of the block's variables.
ghost use Rattle.std.specs.Prelude.{◌≡◌, Bool, false, not, ◌&&◌, ◌||◌, ℕ, eqb, get_or};
ghost use Rattle.live_bytes.specs.Bytes.{live_in};
ghost use Rattle.live_tables.specs.Tables.{TableIs, FlagsAre, at, view, no_sets, no_flags, no_tables, empty, Ended, joined_set};

use live_bytes::LiveBytes;
use pcode::var::VarNode;

// For each variable, its bytes that are written last in a stretch, that are read there, and that are read in later stretches.
#[derive(Clone, Copy)]
pub struct Tables {
    pub last: [LiveBytes; 112],
    pub reads: [LiveBytes; 112],
    pub across: [LiveBytes; 112],
}

pub fn no_sets() -> [LiveBytes; 112]
    ensures { result ≡ no_sets }
{
    [LiveBytes::NONE; 112]
}

pub fn no_flags() -> [bool; 112]
    ensures { result ≡ no_flags }
{
    [false; 112]
}

// A variable's bytes are added in its row.
pub fn add_to(table: &mut [LiveBytes; 112], row: usize, var: VarNode)
    ensures { TableIs table.new (λ i k. at row var i k || view table.old i k) }
{
    if row < 112 {
        table[row] = table[row].add(var);
    }
}

// A variable's bytes are removed in its row. Apart from add_to: one function with a closure would have to say in its clause what the closure does to each byte.
pub fn subtract_from(table: &mut [LiveBytes; 112], row: usize, var: VarNode)
    ensures { TableIs table.new (λ i k. not (at row var i k) && view table.old i k) }
{
    if row < 112 {
        table[row] = table[row].subtract(var);
    }
}

// What is read in later stretches; past a marker nothing is.
fn joined(marker: bool, reads: LiveBytes, across: LiveBytes) -> LiveBytes
    ensures { result ≡ joined_set marker reads across }
{
    if marker {
        return LiveBytes::NONE;
    }
    LiveBytes {
        set: reads.set | across.set,
    }
}

impl Tables {
    pub fn new() -> Tables
        ensures { result ≡ no_tables }
    {
        Tables {
            last: no_sets(),
            reads: no_sets(),
            across: no_sets(),
        }
    }

    // Whether a write in a row is live.
    pub fn live_at(&self, persists: &[bool; 112], row: usize, var: VarNode) -> bool
        ensures { result ≡ live_in (get_or persists.now row false) (get_or self.now.last row empty).set (get_or self.now.reads row empty).set var }
    {
        if 112 <= row {
            return false;
        }
        live_bytes::is_live(persists[row], self.last[row], self.reads[row], var)
    }

    // A stretch ends: no byte is written last in it yet, and what is read later is read across its end.
    pub fn end_stretch(&mut self, marker: bool)
        ensures { Ended marker self.old self.new }
    {
        let mut all = no_sets();
        for i in 0..112 {
            all[i] = joined(marker, self.reads[i], self.across[i]);
        }
        *self = Tables {
            last: no_sets(),
            reads: all,
            across: all,
        };
    }
}

// A flag is set in its row, if the variable is there.
pub fn note(table: &mut [bool; 112], row: usize, there: bool)
    ensures { FlagsAre table.new (λ i. (there && eqb i row) || get_or table.old i false) }
{
    if there && row < 112 {
        table[row] = true;
    }
}
