// Bytes of a row of the store, and slices of codes.
ghost use Rattle.std.specs.Prelude.{◌≡◌, ◌+◌, ◌*◌, ◌≤◌, length};
ghost use Rattle.const_eval.specs.Known.{start_of, part_of, Within, same_codes, fresh_from, fresh_row, splice};

use bit_vec::moves::copy;

// Bytes `offset` up to `offset + size` of a row of the store, which has 128 codes a row.
#[derive(Clone, Copy)]
pub struct Place {
    pub row: usize,
    pub offset: usize,
    pub size: usize,
}

impl Place {
    // The part's codes.
    pub fn part(self, store: &[u64]) -> &[u64]
        requires { Within (length store.now) self }
        ensures { result.now ≡ part_of self store.now }
    {
        let start = 128 * self.row + 8 * self.offset;
        &store[start..start + 8 * self.size]
    }
}

// New expressions, one a place.
fn fresh(row: &mut [u64], id: u32)
    requires { length row.old ≤ 128 }
    ensures { row.new ≡ fresh_from id 0 (length row.old) }
{
    let base = 4 + 512 * u64::from(id);
    for (i, x) in row.iter_mut().enumerate() {
        *x = base + 2 * (i as u64);
    }
}

// A row's new expressions.
pub fn fresh_row(store: &mut [u64], row: usize, id: u32)
    requires { 128 * row + 128 ≤ length store.old }
    ensures { store.new ≡ splice (128 * row) (fresh_row id) store.old }
{
    let start = 128 * row;
    fresh(&mut store[start..start + 128], id);
}

// Whether a part of the store holds these codes.
pub fn holds(store: &[u64], p: Place, key: &[u64]) -> bool
    requires { Within (length store.now) p }
    ensures { result ≡ same_codes (part_of p store.now) key.now }
{
    p.part(store) == key
}

// A part of the store takes new codes.
pub fn put(store: &mut [u64], p: Place, new: &[u64])
    requires { Within (length store.old) p × (length new.now ≡ 8 * p.size) }
    ensures { store.new ≡ splice (start_of p) new.now store.old }
{
    let start = 128 * p.row + 8 * p.offset;
    copy(&mut store[start..start + new.len()], new);
}
