// Sums and products that read no table: for loops over bytes.
ghost use Rattle.std.specs.Prelude.{◌≡◌, ◌*◌, ◌%◌};
ghost use Rattle.field.specs.Promise.{SumIs, DoubleIs, ProductIs};

// The sum of two numbers.
pub fn add(a: u8, b: u8) -> u8
    ensures { SumIs a b result }
{
    a ^ b
}

// The product by 2: the bits shifted up, and 285 taken away where bit 7 leaves the byte.
pub fn double(a: u8) -> u8
    ensures { DoubleIs a result }
{
    (a % 128 * 2) ^ (a / 128 * 29)
}

// x where c is odd, else 0.
fn where_odd(c: u8, x: u8) -> u8
    ensures { result ≡ c % 2 * x }
{
    c % 2 * x
}

// The product of two numbers: a doubled once for each bit of c, summed where the bit is set.
pub fn times(a: u8, c: u8) -> u8
    ensures { ProductIs a c result }
{
    let a1 = double(a);
    let a2 = double(a1);
    let a3 = double(a2);
    let a4 = double(a3);
    let a5 = double(a4);
    let a6 = double(a5);
    let a7 = double(a6);
    let low = where_odd(c, a) ^ where_odd(c / 2, a1) ^ where_odd(c / 4, a2) ^ where_odd(c / 8, a3);
    let high = where_odd(c / 16, a4)
        ^ where_odd(c / 32, a5)
        ^ where_odd(c / 64, a6)
        ^ where_odd(c / 128, a7);
    low ^ high
}
