// Powers by the tables: the logarithm is multiplied by the exponent. 0 has no logarithm, and is told apart first.
ghost use Rattle.tables.specs.Promise.{PowerIs};

use crate::tables::{logarithm, power_of_two};

// a to the power t: power 0 of every number is 1, of 0 too. Exponents of 2 wrap at 255.
pub fn power(a: u8, t: usize) -> u8
    ensures { PowerIs a t result }
{
    if t == 0 {
        return 1;
    }
    if a == 0 {
        return 0;
    }
    power_of_two(logarithm(a) * (t % 255) % 255)
}
