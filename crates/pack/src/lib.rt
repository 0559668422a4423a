// Reading a pack into a filled stripe: document 01, "The pack file" and "Refusals in order".
//
// The entry takes every input and ends: it has no `requires`. A pack that isn't well formed, too many nodes lost, and columns that belong to no whole stripe
// are refused with their number, in the pack reader's own order, and a refusal leaves every lent byte as it was. What the entry promises is a record of
// specs/Promise.antt. (Functions with a `requires` stand in the private modules `placing` and `reading`: none can be named from outside.)
#![tactic(auto)]

mod answers;
mod placing;
mod reading;

// What reading a pack answers.
pub use answers::Contents;

// The filled stripe of a pack.
pub use reading::read_pack;

// How long the largest stripe is, and how many bytes are lent for one.
pub use reading::LARGEST_STRIPE;
