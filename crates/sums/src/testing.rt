// Testing a stripe: document 01, "The equations". `lowest` has a `requires`.
ghost use Rattle.std.specs.Prelude.{◌≡◌, ◌*◌, length};
ghost use Rattle.sums.specs.Kernel.{FoundIn};
ghost use Rattle.sums.specs.Promise.{TestMeets};

use crate::adding::add_all;
use crate::answers::Failure;
use rules::{Refusal, Shape, Sizes, check_len, measure};

// The lowest row, and in it the lowest t, whose sum isn't 0.
fn lowest(sums: &[u8], z: Sizes) -> Option<Failure>
    requires { length sums.now ≡ z.shape.r * z.l }
    ensures { FoundIn z.shape.r z.l sums.now result }
{
    for row in 0..z.l {
        for t in 0..z.shape.r {
            if sums[t * z.l + row] != 0 {
                return Some(Failure { row, t });
            }
        }
    }
    None
}

// Where the stripe fails first: the lowest row, and in it the lowest t; none where it is whole. (Inlined, so that a caller's stack has no
// frame for it.)
#[tactic(auto, unfolding(crate::specs::Refusal::test_refusal, rules::specs::Refusal::shape_refusal))]
#[inline(always)]
pub fn test(shape: Shape, stripe: &[u8]) -> Result<Option<Failure>, Refusal>
    ensures { TestMeets shape stripe.now result }
{
    let Ok(z) = measure(shape) else {
        return Err(Refusal::BadShape);
    };
    check_len(stripe, z.stripe_len())?;
    // At most 4 sums for each of at most 256 rows.
    let mut room = [0u8; 1024];
    let sums = &mut room[..z.shape.r * z.l];
    add_all(sums, stripe, z);
    Ok(lowest(sums, z))
}
