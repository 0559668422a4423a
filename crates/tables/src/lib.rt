// Products, powers and quotients of the numbers 0 to 255 by two constant tables: the powers of 2 and their logarithms.
//
// Every function takes every input: no public function has a `requires`. (Those of the private module `tables` may have one.)
// What each promises is a record of specs/Promise.antt, and of crate `field` for the product. Division by 0 is refused with
// number 9, and no function answers a number for it.
//
// None of these is called in a loop over bytes: `times` of crate `field` reads no table. (The compiler that this was written for
// copied a constant table to the stack at every use; today's reads it in place.)
#![tactic(auto)]

mod dividing;
mod multiplying;
mod raising;
mod tables;

// The number whose product with the divisor is the dividend.
pub use dividing::divide;

// The product, by the sum of the logarithms.
pub use multiplying::mul;

// A power, by the logarithm times the exponent.
pub use raising::power;
