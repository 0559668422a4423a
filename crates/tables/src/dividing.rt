// The quotient by the tables: the logarithms are subtracted. 0 has no logarithm, and is told apart first.
ghost use Rattle.tables.specs.Promise.{QuotientIs};

use crate::tables::{logarithm, power_of_two};
use rules::Refusal;

// The number whose product with b is a; refused where b is 0.
pub fn divide(a: u8, b: u8) -> Result<u8, Refusal>
    ensures { QuotientIs a b result }
{
    if b == 0 {
        return Err(Refusal::DivisionByZero);
    }
    if a == 0 {
        return Ok(0);
    }
    let t = logarithm(a) + 255 - logarithm(b);
    Ok(power_of_two(t))
}
