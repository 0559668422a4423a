// Reading the layout of a pack: document 01, "The pack file".
//
// The entry takes every input and ends: it has no `requires`. A pack that isn't well formed is refused with a number, in the pack reader's own order. What
// the entry promises is a record of specs/Promise.antt; the pack and its refusals are defined in crate `entries`.
#![tactic(auto)]

mod answers;
mod layouts;

// What reading the layout finds.
pub use answers::Found;

// Shape, held set and columns of a pack: all checks but whether they can be filled.
pub use layouts::read_layout;

// How long the largest pack is.
pub use layouts::LARGEST_PACK;
