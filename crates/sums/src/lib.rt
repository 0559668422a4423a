// The sums of the equations: a stripe is tested by them, and filling solves for what they are off by.
//
// Every function that is named here takes every input and ends: none has a `requires`. A bad shape or length is refused with its number, in document 01's
// order, and a refusal leaves every lent byte as it was. What each promises is a record of specs/Promise.antt. (Functions of `adding` and `testing` that
// have a `requires` can't be named from outside.)
#![tactic(auto)]

mod adding;
mod answers;
mod testing;

// Where a stripe fails.
pub use answers::Failure;

// Is a stripe whole?
pub use testing::test;

// All sums of a stripe.
pub use adding::sums_of;
