// The entry: the column of a failed node from the fractions of all others.
ghost use Rattle.rebuild.specs.Promise.{RebuildMeets};

use crate::summing::Given;
use recover::solve_rows;
use rules::{Refusal, Shape, check_len, measure};

// Rebuilds the failed node's column from the fractions of the n − 1 others, end to end in rising node order: the one column that, with them, meets the
// equations of every row read.
#[tactic(auto, using(crate::proofs::Gathering::sums_most), unfolding(crate::specs::Refusal::rebuild_refusal, rules::specs::Refusal::shape_refusal))]
pub fn rebuild(
    shape: Shape,
    failed: usize,
    fractions: &[u8],
    column: &mut [u8],
) -> Result<(), Refusal>
    ensures { RebuildMeets shape failed fractions.now column.old result column.new }
{
    let Ok(z) = measure(shape) else {
        return Err(Refusal::BadShape);
    };
    check_len(fractions, (z.shape.n - 1) * z.fraction_len())?;
    check_len(column, z.l)?;
    z.check_node(failed)?;
    let given = Given {
        z,
        failed,
        bytes: fractions,
    };
    // r sums for each row read; s being r, as many as a column has bytes.
    let mut room = [0u8; 256];
    let sums = &mut room[..z.shape.r * z.fraction_len()];
    given.add_all(sums);
    solve_rows(sums, z.shape, failed, column).unwrap();
    Ok(())
}
