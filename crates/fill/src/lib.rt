// Filling lost columns, and parity: document 01, "Filling lost columns".
//
// Every entry takes every input and ends: none has a `requires`. A bad shape, length or lost set, and survivors that belong to no whole stripe, are
// refused with their number, in document 01's order, and a refusal leaves every lent byte as it was. What each entry promises is a record of
// specs/Promise.antt. (Functions with a `requires` stand in the private module `filling`: none can be named from outside.)
#![tactic(auto)]

mod filling;

// Up to r lost columns from the others.
pub use filling::fill;

// The parity columns from the data columns.
pub use filling::fill_parity;
