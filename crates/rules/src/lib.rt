// Document 01's rules: the shape of a stripe and the points in code, and in specs/ every rule that the other crates' contracts
// cite. Read specs/ in the order of its Lib.antt, beside document 01.
//
// Every function that another crate can call takes every input: none has a `requires`. What each promises is in specs/Promise.antt, or in the rules' own words
// at the function.
#![tactic(auto)]

mod checking;
mod measuring;
mod points;
mod refusals;
mod shapes;

// What the caller chooses, and an accepted shape with all its sizes.
pub use shapes::{Shape, Sizes};

// Why an entry refuses, in document 01's numbers; and what an inner function answers where what it is given doesn't fit together.
pub use refusals::{Misfit, Refusal};

// The sizes of an accepted shape, and what each digit of a row counts.
pub use measuring::{measure, worth};

// A buffer's length checked; the lengths and nodes of a shape are methods of its sizes.
pub use checking::check_len;

// The point of a node.
pub use points::point;
