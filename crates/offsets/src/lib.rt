// The numbers of a pack: document 01, "The pack file". Its total, its offsets, and the input's length: refusal 8, in this order.
//
// Every function takes every input: none has a `requires`, but for private ones. What each promises is a record of specs/Promise.antt; the pack is defined in
// crate `entries`.
#![tactic(auto)]

mod numbers;
mod totals;

// Is the total wrong?
pub use totals::wrong_total;

// The first entry whose offset is wrong.
pub use totals::first_wrong_offset;

// Is the input's length wrong?
pub use totals::wrong_length;
