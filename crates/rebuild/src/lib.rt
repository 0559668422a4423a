// Rebuilding one column from fractions: document 01, "Fractions and rebuilding".
//
// `rebuild` takes every input and ends: it has no `requires`. A bad shape, length or node number is refused with its number, in document 01's order, and a
// refusal leaves the column as it was. What it promises is a record of specs/Promise.antt. It works in two steps, so that a later entry of this crate can
// take one fraction at a time: `add_fraction` of crate `fractions` adds what one fraction brings to running sums, `solve_rows` of crate `recover` finds the column
// from the sums of all. (Private functions have a `requires`; none can be named from outside.)
#![tactic(auto)]

mod rebuilding;
mod summing;

// The column of a failed node, from the fractions of all others.
pub use rebuilding::rebuild;
