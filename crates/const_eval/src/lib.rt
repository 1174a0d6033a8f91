// What the first pass knows of a block's variables: their bits, which are in use, and the value map.
#![tactic(auto)]

pub mod place; // place.rt: bytes of a row of the store, and slices of codes
pub mod map; // map.rt: the value map
pub mod known; // known.rt: the store, the flags and the map as one value: look-ups, first uses, markers and clearing
