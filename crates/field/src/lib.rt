// The numbers 0 to 255 of document 01, the field of ISO/IEC 18004: addition is exclusive or, and multiplication is that of
// polynomials with bits as coefficients, modulo the polynomial whose bits make 285.
//
// Every function takes every input: no public function has a `requires`. What each promises is a record of
// specs/Promise.antt.
//
// Which product to use. A loop over bytes calls `times`: it goes by the bits of its second factor and reads no table. `mul`
// of crate `tables` is for one product: it adds logarithms, and reads the two tables. Both keep the same promise, 0 included.
// `double` is the product by 2. Powers and quotients are in crate `tables` too.
#![tactic(auto)]

mod bits;

// The sum.
pub use bits::add;

// The product by 2.
pub use bits::double;

// The product, by the bits of the second factor.
pub use bits::times;
