// Stripes: parity, testing, lost columns.
ghost use Rattle.std.specs.Prelude.{◌<◌};
ghost use Rattle.fill.specs.Promise.{FillMeets, ParityMeets};
ghost use Rattle.capi.specs.Word.{shape_of, Told};
ghost use Rattle.capi.specs.Promise.{TestCodeMeets};

use crate::shapes::{code_of, shape_of};
use fill::{fill, fill_parity};
use rules::{Refusal, Shape, check_len, measure};
use sums::test;

// Writes the parity columns.
#[unsafe(no_mangle)]
pub extern "C" fn przytulisz_fill_parity(shape: u64, stripe: &mut [u8]) -> u32
    ensures { Told (λ answer. ParityMeets (shape_of shape) stripe.old answer stripe.new) result }
{
    code_of(fill_parity(shape_of(shape), stripe))
}

// Tests a stripe: 1 in `whole`, or 0 and where it fails first.
#[unsafe(no_mangle)]
pub extern "C" fn przytulisz_test(
    shape: u64,
    stripe: &[u8],
    whole: &mut u8,
    row: &mut usize,
    t: &mut usize,
) -> u32
    ensures { TestCodeMeets (shape_of shape) stripe.now whole.old row.old t.old result whole.new row.new t.new }
{
    match test(shape_of(shape), stripe) {
        Err(refusal) => refusal.into(),
        Ok(None) => {
            *whole = 1;
            0
        },
        Ok(Some(f)) => {
            *whole = 0;
            *row = f.row;
            *t = f.t;
            0
        },
    }
}

// What `fill` answers of a lost set with a bit above the lowest 16, which is above every n.
#[tactic(auto, unfolding(fill::specs::Refusal::fill_refusal, rules::specs::Refusal::shape_refusal))]
fn fill_wide(shape: Shape, lost: u32, stripe: &[u8]) -> Result<(), Refusal>
    requires { 65535 < lost }
    ensures { FillMeets shape lost stripe.now result stripe.now }
{
    let Ok(z) = measure(shape) else {
        return Err(Refusal::BadShape);
    };
    check_len(stripe, z.stripe_len())?;
    Err(Refusal::BadNode)
}

// Writes the lost columns. A bit above the lowest 16 is above every n, and is refused as one.
#[unsafe(no_mangle)]
pub extern "C" fn przytulisz_fill(shape: u64, lost: u32, stripe: &mut [u8]) -> u32
    ensures { Told (λ answer. FillMeets (shape_of shape) lost stripe.old answer stripe.new) result }
{
    if 65535 < lost {
        return code_of(fill_wide(shape_of(shape), lost, stripe));
    }
    code_of(fill(shape_of(shape), lost as u16, stripe))
}
