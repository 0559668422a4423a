// The nodes that are chosen to be filled: how many, which, their points, and the scores of rows against them. Every function that is named here takes every
// input: none has a `requires`. (`over` has one, and can't be named from outside.) What each promises is a record of specs/Promise.antt.
#![tactic(auto)]

mod choosing;
mod scoring;

// How many nodes are chosen; the list of them; the points of a list.
pub use choosing::{count_of, listed, points_of};

// The scores of all rows, and whether one of them is that asked for.
pub use scoring::{any_at, scores_of};
