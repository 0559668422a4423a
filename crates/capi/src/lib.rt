// The C library: include/przytulisz.h says what a caller of it needs.
//
// Thin exports over the entries. Every export takes every input and ends: none has a `requires`. A shape is one number, an answer is 0 or the number of a
// refusal; each contract is the promise of the entry itself, of an answer with the number that is returned (specs/Word.antt), or a record of
// specs/Promise.antt: of a shape's number, and where numbers are written through pointers.
#![tactic(auto)]

mod packs;
mod records;
mod repairs;
mod shapes;
mod stripes;
