// The sums of the equations of a stripe, node by node. `add_all` has a `requires`, and can't be named from outside the crate.
ghost use Rattle.std.specs.Prelude.{◌≡◌, ◌*◌, length};
ghost use Rattle.rules.specs.Shape.{group_size, groups};
ghost use Rattle.rules.specs.Stripe.{symbol, stripe_length};
ghost use Rattle.sums.specs.Kernel.{SumsAre};
ghost use Rattle.sums.specs.Promise.{SumsMeet};

use columns::lesser;
use rules::{Refusal, Shape, Sizes, check_len, measure, point, worth};
use weights::add_node;

// Adds the shares of all nodes, group by group, phantoms too. The columns of a node's group are lent on, as the part of the stripe that starts at the group's
// first column; that of the last group may be short.
#[tactic(auto, using(crate::proofs::Room::room))]
pub fn add_all(sums: &mut [u8], stripe: &[u8], z: Sizes)
    requires stripe_len { length stripe.now ≡ stripe_length z.shape }
    requires sums_are { SumsAre z.shape (symbol z.shape stripe.now) 0 sums.old }
    ensures { SumsAre z.shape (symbol z.shape stripe.now) (groups z.shape * group_size z.shape) sums.new }
{
    let Sizes { shape, m, l, s, .. } = z;
    // Group and place count from 0 here.
    for v in 0..m {
        let start = v * s * l;
        let stop = lesser(start + s * l, stripe.len());
        let group = &stripe[start..stop];
        let w = worth(shape, v + 1);
        for u in 0..s {
            let p = point(shape, v * s + u + 1);
            add_node(sums, group, s, w, l, u, p, shape.r).unwrap();
        }
    }
}

// The sums of all equations of a stripe: r for every row, those of t = 0 first. A stripe is whole exactly when all are 0.
#[tactic(auto, unfolding(crate::specs::Refusal::sums_refusal, rules::specs::Refusal::shape_refusal))]
pub fn sums_of(shape: Shape, stripe: &[u8], sums: &mut [u8]) -> Result<(), Refusal>
    ensures { SumsMeet shape stripe.now sums.old result sums.new }
{
    let Ok(z) = measure(shape) else {
        return Err(Refusal::BadShape);
    };
    check_len(stripe, z.stripe_len())?;
    check_len(sums, z.shape.r * z.l)?;
    sums.fill(0);
    add_all(sums, stripe, z);
    Ok(())
}
