// The entries that only copy: a record is laid into a stripe and read back, a helper's fraction is cut.
//
// Every entry takes every input and ends: none has a `requires`. A bad shape, length or node number is refused with its number, in document
// 01's order, and a refusal leaves every lent byte as it was. What each entry promises is a record of specs/Promise.antt.
// (Of the private functions `take_rows` has a `requires`: it can't be named from outside.)
#![tactic(auto)]

mod cutting;
mod records;

// A record, laid into a stripe and read back.
pub use records::{lay, read_back};

// What a helper gives to rebuild another node.
pub use cutting::cut;
