// The text that is printed of a pack: document 01, "The pack file".
//
// The entry takes every input and ends: it has no `requires`. What it promises is in specs/Promise.antt, the text in specs/Text.antt.
// (Functions with a `requires` stand in the private modules `lines`, `pages` and `printing`: none can be named from outside.)
#![tactic(auto)]

mod lines;
mod pages;
mod printing;

// The text of an answer of the pack reader.
pub use printing::print;

// How long the longest text is, and how many bytes are lent for one.
pub use pages::LONGEST_TEXT;
