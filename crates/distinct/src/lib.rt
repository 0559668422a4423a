// Points that differ. `apart` takes every input: it has no `requires`. What it promises is a record of specs/Promise.antt.
#![tactic(auto)]

mod comparing;

// Are there at most four points, all different?
pub use comparing::apart;
