// Filling lost columns, and parity: document 01, "Filling lost columns". Functions of this module that have a `requires` can't be named from outside the crate.
ghost use Rattle.std.specs.Prelude.{◌≡◌, ◌≤◌, length};
ghost use Rattle.theory.specs.Set.{count as count_of};
ghost use Rattle.rules.specs.Stripe.{stripe_length};
ghost use Rattle.corrections.specs.Correction.{chosen};
ghost use Rattle.levels.specs.Promise.{NoneFrom};
ghost use Rattle.fill.specs.Kernel.{Standing, FilledOne};
ghost use Rattle.fill.specs.Promise.{FillMeets, ParityMeets};

use levels::fill_levels;
use lost::{copy_columns, flags_of, others_of, parity_flags};
use rules::{Refusal, Shape, Sizes, check_len, measure};
use sums::test;

// The columns to be filled of one stripe: at most r, and none above n.
#[derive(Clone, Copy, Debug, PartialEq, Eq)]
struct Chosen {
    z: Sizes,
    flags: [bool; 16],
    count: usize,
    ghost counted: { count ≡ count_of z.shape.n (chosen flags) },
    ghost few: { count ≤ z.shape.r },
    ghost none_above: { NoneFrom z.shape.n flags },
}

impl Chosen {
    // Does the stripe, which meets as many equations as columns are chosen, meet all? With r of them it does; with fewer they are tested.
    #[tactic(auto, unfolding(sums::specs::Refusal::test_refusal, rules::specs::Refusal::shape_refusal))]
    fn stands(&self, stripe: &[u8]) -> bool
        requires { length stripe.now ≡ stripe_length self.now.z.shape }
        ensures { Standing self.now.z.shape self.now.count stripe.now result }
    {
        self.count == self.z.shape.r || test(self.z.shape, stripe).unwrap().is_none()
    }

    // Fills the chosen columns, in scratch as long; refused where no whole stripe has the other ones. Nothing is written before it is known that the
    // stripe can be filled, and no old byte of a chosen column is read.
    #[tactic(auto, unfolding(rules::specs::Stripe::stripe_length))]
    fn fill_in(&self, scratch: &mut [u8], stripe: &mut [u8]) -> Result<(), Refusal>
        requires scratch_len { length scratch.old ≡ stripe_length self.now.z.shape }
        requires stripe_len { length stripe.old ≡ stripe_length self.now.z.shape }
        ensures { FilledOne self.now.z.shape self.now.flags self.now.count stripe.old result stripe.new }
    {
        let Sizes { shape, l, .. } = self.z;
        let kept = others_of(self.flags);
        copy_columns(scratch, stripe, kept, shape.n, l).unwrap();
        fill_levels(shape, self.flags, scratch).unwrap();
        if !self.stands(scratch) {
            return Err(Refusal::NoWholeStripe);
        }
        copy_columns(stripe, scratch, self.flags, shape.n, l).unwrap();
        Ok(())
    }

    // The same, with scratch of its own.
    fn fill(&self, stripe: &mut [u8]) -> Result<(), Refusal>
        requires { length stripe.old ≡ stripe_length self.now.z.shape }
        ensures { FilledOne self.now.z.shape self.now.flags self.now.count stripe.old result stripe.new }
    {
        let mut scratch = [0u8; 4096];
        self.fill_in(&mut scratch[..self.z.stripe_len()], stripe)
    }
}

// Fills the lost columns, bit i − 1 of `lost` for node i, so that the stripe is whole.
#[tactic(auto, unfolding(crate::specs::Refusal::fill_refusal, rules::specs::Refusal::shape_refusal, rules::specs::Lost::bit_above, rules::specs::Lost::lost_count))]
pub fn fill(shape: Shape, lost: u16, stripe: &mut [u8]) -> Result<(), Refusal>
    ensures { FillMeets shape lost stripe.old result stripe.new }
{
    let Ok(z) = measure(shape) else {
        return Err(Refusal::BadShape);
    };
    check_len(stripe, z.stripe_len())?;
    if usize::from(lost) >> z.shape.n != 0 {
        return Err(Refusal::BadNode);
    }
    let count = lost.count_ones() as usize;
    if count > z.shape.r {
        return Err(Refusal::TooManyLost);
    }
    let chosen = Chosen {
        z,
        flags: flags_of(lost),
        count,
    };
    chosen.fill(stripe)
}

// Fills the parity columns, so that the stripe is whole. With r columns lost it always can be.
#[tactic(auto, unfolding(crate::specs::Refusal::parity_refusal, rules::specs::Refusal::shape_refusal, rules::specs::Lost::is_parity))]
pub fn fill_parity(shape: Shape, stripe: &mut [u8]) -> Result<(), Refusal>
    ensures { ParityMeets shape stripe.old result stripe.new }
{
    let Ok(z) = measure(shape) else {
        return Err(Refusal::BadShape);
    };
    check_len(stripe, z.stripe_len())?;
    let parity = Chosen {
        z,
        flags: parity_flags(z.k, z.shape.n),
        count: z.shape.r,
    };
    parity.fill(stripe)
}
