// What is known of the variables: asking the value map, first uses, entering a written output, markers and clearing.
ghost use Rattle.std.specs.Prelude.{◌≡◌, ◌≤◌, ◌<◌, ◌+◌, ◌*◌, length};
ghost use Rattle.const_eval.specs.Known.{part_of, Within};
ghost use Rattle.const_eval.specs.Map.{Inside};
ghost use Rattle.const_eval.specs.State.{known_of, Keeps, map_gives, entries_of, entered, Room, first_use, noted, flag_of, keep_flags, forgotten, cleared};

use crate::map::{enter_part, lookup, lookup_part};
use crate::place::{Place, fresh_row};

// How many entries the map has, and the next expression's id.
#[derive(Clone, Copy)]
pub struct Tally {
    pub count: usize,
    pub next: u32,
}

// What is known of a block's variables: the store of 128 codes a row, a flag for each row in use, the value map's words, and the counts.
#[derive(Drop)]
pub struct ConstEval<'a> {
    pub store: &'a mut [u64],
    pub used: &'a mut [u64],
    pub map: &'a mut [u64],
    pub tally: Tally,
}

// A row's flag after a marker: a temporary's goes.
fn flag(u: u64, t: u64) -> u64
    ensures { result ≡ flag_of u t }
{
    if t == 0 { u } else { 0 }
}

// The flags of all rows after a marker.
fn keep(used: &mut [u64], temp: &[u64])
    requires { length used.old ≡ length temp.now }
    ensures { used.new ≡ keep_flags used.old temp.now }
{
    for (i, u) in used.iter_mut().enumerate() {
        *u = flag(*u, temp[i]);
    }
}

impl<'a> ConstEval<'a> {
    // The part last entered for that value, if it still holds it.
    pub fn lookup(&self, key: &[u64]) -> Option<Place>
        requires { (131 * self.now.tally.count ≤ length self.now.map.now) × Inside (length self.now.store.now) (entries_of (known_of self.now)) }
        ensures { result ≡ map_gives key.now (known_of self.now) }
    {
        lookup(self.store, self.map, self.tally.count, key)
    }

    // The part last entered for the value of a part, if it still holds it.
    fn lookup_part(&self, p: Place) -> Option<Place>
        requires { (131 * self.now.tally.count ≤ length self.now.map.now) × Inside (length self.now.store.now) (entries_of (known_of self.now)) × Within (length self.now.store.now) p }
        ensures { result ≡ map_gives (part_of p self.now.store.now) (known_of self.now) }
    {
        lookup_part(self.store, self.map, self.tally.count, p)
    }

    // A part's value is entered.
    fn enter(&mut self, p: Place)
        requires { (131 * self.old.tally.count + 131 ≤ length self.old.map.now) × Within (length self.old.store.now) p }
        ensures kept { Keeps self.old self.new }
        ensures after { known_of self.new ≡ entered p (known_of self.old) }
    {
        let n = self.tally.count;
        // Lent by names of their own: the proof then knows what they hold afterwards.
        let store = &mut *self.store;
        let map = &mut *self.map;
        enter_part(map, n, store, p);
        self.tally.count = n + 1;
    }

    // A first use of a row makes 128 new expressions and enters the bytes used; nothing where the row is in use.
    pub fn first_use(&mut self, p: Place)
        requires { Room p (known_of self.old) }
        ensures kept { Keeps self.old self.new }
        ensures after { known_of self.new ≡ first_use p (known_of self.old) }
    {
        if self.used[p.row] != 0 {
            return;
        }
        let id = self.tally.next;
        self.used[p.row] = 1;
        fresh_row(self.store, p.row, id);
        self.tally.next = id + 1;
        self.enter(p);
    }

    // After an output was written: its value is entered, unless the map gives a part that still holds it.
    pub fn note(&mut self, p: Place)
        requires { Room p (known_of self.old) }
        ensures kept { Keeps self.old self.new }
        ensures after { known_of self.new ≡ noted p (known_of self.old) }
    {
        if self.lookup_part(p).is_none() {
            self.enter(p);
        }
    }

    // A marker empties the value map and forgets temporaries.
    pub fn forget(&mut self, temp: &[u64])
        requires { length self.old.used.now ≡ length temp.now }
        ensures kept { Keeps self.old self.new }
        ensures after { known_of self.new ≡ forgotten temp.now (known_of self.old) }
    {
        keep(self.used, temp);
        self.tally.count = 0;
    }

    // All knowledge goes.
    pub fn clear(&mut self)
        ensures kept { Keeps self.old self.new }
        ensures after { known_of self.new ≡ cleared (known_of self.old) }
    {
        self.used.fill(0);
        self.tally.count = 0;
    }
}
