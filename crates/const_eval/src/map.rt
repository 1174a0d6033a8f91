// The value map: entries of a value and the part of a variable entered for it, the newest last.
ghost use Rattle.std.specs.Prelude.{◌≡◌, ◌+◌, ◌*◌, ◌≤◌, length};
ghost use Rattle.const_eval.specs.Known.{part_of, Within, same_codes, splice};
ghost use Rattle.const_eval.specs.Map.{place_at, entry_at, entries, words_of, Inside, Short, find_e, lookup_of};

use crate::place::{Place, holds};
use bit_vec::moves::copy;

// An entry is 131 words of one slice: a value is as long as its part, and a struct would hold 128 codes with a length beside them.
// An entry's words: the part, then the value.
fn put_entry(row: &mut [u64], p: Place, key: &[u64])
    requires { length row.old ≡ 3 + length key.now }
    ensures { row.new ≡ words_of p key.now }
{
    copy(&mut row[3..], key);
    row[0] = p.row as u64;
    row[1] = p.offset as u64;
    row[2] = p.size as u64;
}

// The map's entry at `n`.
pub fn enter(map: &mut [u64], n: usize, p: Place, key: &[u64])
    requires { (131 * n + 131 ≤ length map.old) × (length key.now ≤ 128) }
    ensures { map.new ≡ splice (131 * n) (words_of p key.now) map.old }
{
    let start = 131 * n;
    put_entry(&mut map[start..start + (3 + key.len())], p, key);
}

fn place_at(map: &[u64], i: usize) -> Place
    requires { 131 * i + 131 ≤ length map.now }
    ensures { result ≡ place_at map.now i }
{
    let start = 131 * i;
    Place {
        row: map[start] as usize,
        offset: map[start + 1] as usize,
        size: map[start + 2] as usize,
    }
}

// Whether an entry is of that value.
fn hit(map: &[u64], i: usize, p: Place, key: &[u64]) -> bool
    requires { (131 * i + 131 ≤ length map.now) × (p ≡ place_at map.now i) × (p.size ≤ 16) }
    ensures { result ≡ same_codes (entry_at map.now i).key key.now }
{
    let start = 131 * i + 3;
    &map[start..start + 8 * p.size] == key
}

// The entry last made for that value, among the first `n`.
fn find(map: &[u64], n: usize, key: &[u64]) -> Option<Place>
    requires { (131 * n ≤ length map.now) × Short (entries map.now n) }
    ensures { result ≡ find_e key.now (entries map.now n) }
{
    for i in (0..n).rev() {
        let p = place_at(map, i);
        if hit(map, i, p, key) {
            return Some(p);
        }
    }
    None
}

// The part last entered for that value, if it still holds it.
pub fn lookup(store: &[u64], map: &[u64], n: usize, key: &[u64]) -> Option<Place>
    requires { (131 * n ≤ length map.now) × Inside (length store.now) (entries map.now n) }
    ensures { result ≡ lookup_of store.now (entries map.now n) key.now }
{
    let p = find(map, n, key)?;
    if holds(store, p, key) { Some(p) } else { None }
}

// The part last entered for the value of a part, if it still holds it.
pub fn lookup_part(store: &[u64], map: &[u64], n: usize, p: Place) -> Option<Place>
    requires { (131 * n ≤ length map.now) × Inside (length store.now) (entries map.now n) × Within (length store.now) p }
    ensures { result ≡ lookup_of store.now (entries map.now n) (part_of p store.now) }
{
    lookup(store, map, n, p.part(store))
}

// The map's entry at `n`, of a part of the store.
pub fn enter_part(map: &mut [u64], n: usize, store: &[u64], p: Place)
    requires { (131 * n + 131 ≤ length map.old) × Within (length store.now) p }
    ensures { map.new ≡ splice (131 * n) (words_of p (part_of p store.now)) map.old }
{
    enter(map, n, p, p.part(store));
}
