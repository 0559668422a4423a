// The column of a failed node, from what it brings to the equations of the rows read: document 01, "The r unknowns of one row".
//
// `solve_rows` takes every input and has no `requires`: it answers a misfit, and writes nothing, where it isn't lent what a rebuild has. What it promises is a
// record of specs/Promise.antt. (Private functions have a `requires`; none can be named from outside.)
#![tactic(auto)]

mod solving;

// The column, row by row.
pub use solving::solve_rows;
