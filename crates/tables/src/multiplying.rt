// The product by the tables: the logarithms are added. 0 has no logarithm, and is told apart first.
ghost use Rattle.field.specs.Promise.{ProductIs};

use crate::tables::{logarithm, power_of_two};

// The product of two numbers.
pub fn mul(a: u8, b: u8) -> u8
    ensures { ProductIs a b result }
{
    if a == 0 || b == 0 {
        return 0;
    }
    power_of_two(logarithm(a) + logarithm(b))
}
