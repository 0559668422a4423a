// Whole columns of unknowns: the row solver finds, once for all rows, by which constants the sums count in each unknown. No table is read in a loop over bytes:
// `add_multiple` goes without.
ghost use Rattle.std.specs.Prelude.{◌≡◌, ◌≤◌, ◌<◌, ◌*◌, length};
ghost use Rattle.distinct.specs.Promise.{FewApart};
ghost use Rattle.solver.specs.Kernel.{ConstantsAre, WeightsAre, Combined, ColumnsAre};
ghost use Rattle.solver.specs.Promise.{UnknownsAre};

use columns::add_multiple;
use distinct::apart;
use rules::Misfit;
use systems::solve;

// The constants: row t solves for a sum 1 of the powers t, and sums 0 of the others.
#[tactic(auto, using(distinct::proofs::Indices::four))]
fn constants(count: usize, points: [u8; 4]) -> [[u8; 4]; 4]
    requires { FewApart count points }
    ensures { ConstantsAre count points result }
{
    let first = solve(count, points, [1, 0, 0, 0]);
    let second = solve(count, points, [0, 1, 0, 0]);
    let third = solve(count, points, [0, 0, 1, 0]);
    let fourth = solve(count, points, [0, 0, 0, 1]);
    [first, second, third, fourth]
}

// One column: the sum of the columns of sums, each times its constant.
fn combine(column: &mut [u8], sums: &[u8], count: usize, weights: [u8; 4])
    requires count_bound { (count ≤ 4) × (length column.old ≤ 256) }
    requires sums_len { length sums.now ≡ count * length column.old }
    ensures { Combined count weights sums.now column.old column.new }
{
    let size = column.len();
    column.fill(0);
    for t in 0..count {
        let start = t * size;
        let stop = start + size;
        add_multiple(column, &sums[start..stop], weights[t]);
    }
}

// The constants by which unknown j is combined.
fn weights_of(rows: [[u8; 4]; 4], j: usize) -> [u8; 4]
    requires { j < 4 }
    ensures { WeightsAre rows j result }
{
    std::array::from_fn(|t| rows[t][j])
}

// Every column by the constants, each as its own part of what is lent.
fn write(count: usize, rows: [[u8; 4]; 4], size: usize, sums: &[u8], found: &mut [u8])
    requires count_bound { (count ≤ 4) × (size ≤ 256) }
    requires sums_len { (length sums.now ≡ count * size) × (length found.old ≡ count * size) }
    ensures { ColumnsAre count rows size sums.now found.old found.new }
{
    for j in 0..count {
        let start = j * size;
        let stop = start + size;
        combine(&mut found[start..stop], sums, count, weights_of(rows, j));
    }
}

// Finds `count` unknowns for each of `size` rows, and writes them column by column: at every row and for t from 0 to count − 1 the sum of point j to the
// power t times unknown j is what column t of the sums has there. A misfit, and nothing written, where there are more than four points or two are equal,
// where a column has more than 256 bytes, or where the sums or what is to be written don't have count × size bytes.
pub fn unknowns(
    count: usize,
    points: [u8; 4],
    size: usize,
    sums: &[u8],
    found: &mut [u8],
) -> Result<(), Misfit>
    ensures { UnknownsAre count points size sums.now found.old result found.new }
{
    if !apart(count, points) || 256 < size {
        return Err(Misfit);
    }
    if sums.len() != count * size || found.len() != count * size {
        return Err(Misfit);
    }
    let rows = constants(count, points);
    write(count, rows, size, sums, found);
    Ok(())
}
