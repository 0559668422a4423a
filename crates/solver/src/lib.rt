// Solving for columns of unknowns: at every row as many equations as unknowns, by the powers of distinct points. `unknowns` takes every input and has no
// `requires`: it answers a misfit, and writes nothing, where there is nothing that it can solve. What it promises is a record of specs/Promise.antt. (Private
// functions have a `requires`; none can be named from outside.)
#![tactic(auto)]

mod solving;

// Columns of unknowns from columns of sums.
pub use solving::unknowns;
