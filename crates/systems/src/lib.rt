// The row solver: as many unknowns as there are equations, by the powers of distinct points. `solve` takes every input and has no `requires`: where there are
// more than four points, or two are equal, it answers zeros. What it promises is a record of specs/Promise.antt. (Functions of the private module `rows` may
// have a `requires`; none can be named from outside.)
#![tactic(auto)]

mod rows;
mod solving;

// The unknowns of one row.
pub use solving::solve;
