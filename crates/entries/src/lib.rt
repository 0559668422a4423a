// The entries of a pack: document 01, "The pack file". Which is bad, and which nodes they name.
//
// Every function takes every input: none has a `requires`, but for a private one. What each promises is a record of specs/Promise.antt; the pack is defined in
// specs/Pack.antt, and what makes its layout refused in specs/Refusal.antt.
#![tactic(auto)]

mod entries;

// How many bytes the header has, and an entry.
pub use entries::{ENTRY, HEADER};

// Is a pack shorter than its entries?
pub use entries::shorter;

// The first entry that is bad: refusal 7.
pub use entries::first_bad_entry;

// The set of the entries' nodes.
pub use entries::held_of;
