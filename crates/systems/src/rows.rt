// What the row solver does with rows of numbers: the table of powers, a stage of the elimination, back substitution. Functions of this module may have a
// `requires`; none can be named from outside the crate.
ghost use Rattle.std.specs.Prelude.{◌≤◌};
ghost use Rattle.systems.specs.Kernel.{PowersAre, Products, Gained, RowsStaged, DotIs, Triangle, Substituted};

use field::times;
use tables::divide;

// Four products.
fn products(xs: [u8; 4], ys: [u8; 4]) -> [u8; 4]
    ensures { Products xs ys result }
{
    std::array::from_fn(|j| times(xs[j], ys[j]))
}

// The table: row t has every point to the power t. Power 0 of 0 is 1.
pub fn powers(points: [u8; 4]) -> [[u8; 4]; 4]
    ensures { PowersAre points result }
{
    let squares = products(points, points);
    let cubes = products(squares, points);
    [[1; 4], points, squares, cubes]
}

// A row plus p times the row above it.
#[tactic(auto, unfolding(field::specs::Number::add))]
fn gained<const N: usize>(mut row: [u8; N], above: [u8; N], p: u8) -> [u8; N]
    ensures { Gained N p above.entry row.entry result }
{
    for j in 0..N {
        row[j] ^= times(p, above[j]);
    }
    row
}

// A stage of the elimination: each row but the first gets its factor times the row above it, as that was before the stage.
// The numbers given are a table of one column.
#[tactic(auto, using(distinct::proofs::Indices::four), unfolding(crate::specs::Kernel::staged))]
pub fn stage<const N: usize>(rows: [[u8; N]; 4], factors: [u8; 4]) -> [[u8; N]; 4]
    ensures { RowsStaged N factors rows.entry result }
{
    [
        rows[0],
        gained(rows[1], rows[0], factors[1]),
        gained(rows[2], rows[1], factors[2]),
        gained(rows[3], rows[2], factors[3]),
    ]
}

// The sum of four products.
#[tactic(auto, unfolding(crate::specs::Kernel::dotted, rules::specs::Equation::sum_below, field::specs::Number::add))]
fn dot(row: [u8; 4], found: [u8; 4]) -> u8
    ensures { DotIs row found result }
{
    let [a, b, c, d] = products(row, found);
    a ^ b ^ c ^ d
}

// Back substitution. The unknowns that aren't found yet are 0, and so are those past `count`: neither counts in a row's sum.
pub fn substituted(count: usize, rows: [[u8; 4]; 4], given: [[u8; 1]; 4]) -> [u8; 4]
    requires count_bound { count ≤ 4 }
    requires triangle { Triangle count rows }
    ensures { Substituted count rows given result }
{
    let mut found = [0; 4];
    for h in (0..count).rev() {
        let row = rows[h];
        found[h] = divide(given[h][0] ^ dot(row, found), row[h]).unwrap();
    }
    found
}
