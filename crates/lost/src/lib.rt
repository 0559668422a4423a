// The lost nodes as flags, and columns copied by them.
//
// Every public function takes every input and ends: none has a `requires`. What each promises is a record of specs/Promise.antt.
#![tactic(auto)]

mod copying;
mod flagging;

// The flags of a lost set.
pub use flagging::flags_of;

// The flags of the parity nodes.
pub use flagging::parity_flags;

// The flags of the other nodes.
pub use flagging::others_of;

// The chosen columns from one buffer to another.
pub use copying::copy_columns;
