// One node's column: cut for another, or rebuilt from the fractions of the others.
ghost use Rattle.yebarg.specs.Promise.{CutMeets};
ghost use Rattle.rebuild.specs.Promise.{RebuildMeets};
ghost use Rattle.capi.specs.Word.{shape_of, Told};

use crate::shapes::{code_of, shape_of};
use rebuild::rebuild;
use yebarg::cut;

// Writes the fraction that a helper gives for a failed node.
#[unsafe(no_mangle)]
pub extern "C" fn przytulisz_cut(
    shape: u64,
    helper: usize,
    failed: usize,
    column: &[u8],
    fraction: &mut [u8],
) -> u32
    ensures { Told (λ answer. CutMeets (shape_of shape) helper failed column.now fraction.old answer fraction.new) result }
{
    code_of(cut(shape_of(shape), helper, failed, column, fraction))
}

// Writes the column of a failed node.
#[unsafe(no_mangle)]
pub extern "C" fn przytulisz_rebuild(
    shape: u64,
    failed: usize,
    fractions: &[u8],
    column: &mut [u8],
) -> u32
    ensures { Told (λ answer. RebuildMeets (shape_of shape) failed fractions.now column.old answer column.new) result }
{
    code_of(rebuild(shape_of(shape), failed, fractions, column))
}
