// What one helper's fraction brings to the equations of the rows read: rebuilding solves the sums that the fractions of all helpers bring.
//
// `add_fraction` takes every input and ends: it has no `requires`. A bad shape, length or node number is refused with its number, in document 01's order, and a
// refusal leaves every lent byte as it was. What it promises is a record of specs/Promise.antt. (Private functions of `adding` have a `requires`: none can be
// named from outside.)
#![tactic(auto)]

mod adding;

// What one helper's fraction brings, added to the sums of the rows read.
pub use adding::add_fraction;
