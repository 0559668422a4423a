// The failed column from the sums of all helpers: at every row read as many unknowns as equations, the column's symbols at that row with the digit of the
// failed node's group set to each place.
ghost use Rattle.std.specs.Prelude.{◌≡◌, ◌≤◌, ◌<◌, ◌*◌, ◌%◌, length};
ghost use Rattle.recover.specs.Kernel.{PointsAre, Put};
ghost use Rattle.recover.specs.Promise.{SolveRowsIs};

use rules::{Misfit, Shape, measure, point, worth};
use solver::unknowns;

// The points of the four nodes after the first `first`; 0 past node 16.
fn points_after(shape: Shape, first: usize) -> [u8; 4]
    requires { first ≤ 16 }
    ensures { PointsAre shape first result }
{
    std::array::from_fn(|u| point(shape, first + (u + 1)))
}

// Puts what is found into the column: s columns of `size` bytes, that of place u for the rows with u as the digit that counts w, in rising row order.
fn put_rows(found: &[u8], s: usize, w: usize, size: usize, column: &mut [u8])
    requires w_nonzero { (0 < w) × (0 < s) }
    requires s_bound { (w * s ≤ 256) × (size % w ≡ 0) }
    requires found_len { (length found.now ≡ s * size) × (length column.old ≡ s * size) }
    requires size_bound { s * size ≤ 256 }
    ensures { Put s w size found.now column.old column.new }
{
    // The digit of the row, and what stands above and below it. They are carried along, so that no row divides.
    let mut above = 0usize;
    let mut d = 0;
    let mut j = 0;
    for byte in column.iter_mut() {
        *byte = found[d * size + (above * w + j)];
        j += 1;
        if j == w {
            j = 0;
            d += 1;
            if d == s {
                d = 0;
                above += 1;
            }
        }
    }
}

// Solves every row read, and writes the column. `sums` is what the column is to bring to the equations of the rows read, r × l / s bytes, those of t = 0 first,
// the rows in rising order. A misfit, and nothing written, where the shape isn't accepted, a length isn't exact, or there is no such node.
pub fn solve_rows(sums: &[u8], shape: Shape, failed: usize, column: &mut [u8]) -> Result<(), Misfit>
    ensures { SolveRowsIs shape failed sums.now column.old result column.new }
{
    let Ok(z) = measure(shape) else {
        return Err(Misfit);
    };
    let s = z.s;
    let size = z.fraction_len();
    let end = s * size;
    if sums.len() != end || column.len() != end {
        return Err(Misfit);
    }
    if failed < 1 || z.shape.n < failed {
        return Err(Misfit);
    }
    let v = (failed - 1) / s;
    let points = points_after(shape, v * s);
    let mut room = [0; 256];
    let found = &mut room[..end];
    unknowns(s, points, size, sums, found).unwrap();
    put_rows(found, s, worth(shape, v + 1), size, column);
    Ok(())
}
