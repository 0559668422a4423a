// What one node adds to the sums of the equations: its weight at each row, by document 01's three cases, times its point to the power t.
//
// Every function that is named here takes every input and ends: none has a `requires`. It answers `Err(Misfit)`, and writes nothing, where what it is
// given doesn't fit together. What each promises is a record of specs/Promise.antt. (`weigh`, which is private, has a `requires`: it can't be named from
// outside.)
#![tactic(auto)]

mod sharing;
mod weighing;

// A node's weights, each times the powers of its point, added to the sums; and the same from the columns of its group.
pub use sharing::{add_node, add_shares};
