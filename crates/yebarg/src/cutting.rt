// Cutting a helper's fraction: document 01, "Fractions and rebuilding".
ghost use Rattle.std.specs.Prelude.{◌≡◌, ◌≤◌, ◌<◌, ◌*◌, ◌%◌, length};
ghost use Rattle.yebarg.specs.Kernel.{Taken};
ghost use Rattle.yebarg.specs.Promise.{CutMeets};

use rules::{Refusal, Shape, check_len, measure};

// What the helper gives to rebuild the failed node: its column's bytes at the rows with the failed node's digit, in rising row order.
#[tactic(auto, unfolding(crate::specs::Refusal::cut_refusal, rules::specs::Refusal::shape_refusal))]
pub fn cut(
    shape: Shape,
    helper: usize,
    failed: usize,
    column: &[u8],
    fraction: &mut [u8],
) -> Result<(), Refusal>
    ensures { CutMeets shape helper failed column.now fraction.old result fraction.new }
{
    let Ok(z) = measure(shape) else {
        return Err(Refusal::BadShape);
    };
    check_len(column, z.l)?;
    check_len(fraction, z.fraction_len())?;
    z.check_node(helper)?;
    z.check_node(failed)?;
    if helper == failed {
        return Err(Refusal::BadNode);
    }
    // What a 1 as the digit of the failed node's group counts.
    let w = z.s.pow(((failed - 1) / z.s) as u32);
    take_rows(column, z.s, w, (failed - 1) % z.s, fraction);
    Ok(())
}

// The bytes of a column at the rows that have u as the digit that counts w.
#[tactic(auto, unfolding(crate::specs::Kernel::row_at))]
fn take_rows(column: &[u8], s: usize, w: usize, u: usize, fraction: &mut [u8])
    requires w_nonzero { (0 < w) × (u < s) }
    requires column_len_bound { (length column.now ≤ 256) × (length fraction.old * s ≡ length column.now) }
    requires w_len { length fraction.old % w ≡ 0 }
    ensures { Taken s w u column.now fraction.old fraction.new }
{
    for (j, byte) in fraction.iter_mut().enumerate() {
        *byte = column[j / w * (w * s) + u * w + j % w];
    }
}
