// Chosen columns filled level by level. Functions of this module that have a `requires` can't be named from outside the crate.
ghost use Rattle.std.specs.Prelude.{◌≡◌, ◌≤◌, ◌*◌, length};
ghost use Rattle.theory.specs.Set.{count as count_of};
ghost use Rattle.rules.specs.Stripe.{stripe_length};
ghost use Rattle.rules.specs.Shape.{groups, group_size, rows};
ghost use Rattle.corrections.specs.Correction.{chosen};
ghost use Rattle.levels.specs.Promise.{NoneFrom, LevelsCorrected, LevelsAre};
ghost use Rattle.choices.specs.Promise.{PointsAre, ScoresAre};
ghost use Rattle.levels.specs.Kernel.{InOrder, Placed, LevelCorrected};

use choices::{any_at, count_of, listed, points_of, scores_of};
use columns::copy;
use corrections::correct_columns;
use rules::{Misfit, Shape, Sizes, measure};
use solver::unknowns;
use sums::sums_of;

// The lost nodes of a shape: at most r, and none above n.
#[derive(Clone, Copy, Debug, PartialEq, Eq)]
struct Lost {
    z: Sizes,
    flags: [bool; 16],
    count: usize,
    // The list of them, and their points.
    nodes: [usize; 4],
    points: [u8; 4],
    // Of each row, how many groups have the node lost that its digit names.
    scores: [u8; 256],
    ghost counted: { count ≡ count_of z.shape.n (chosen flags) },
    ghost few: { count ≤ z.shape.r },
    ghost none_above: { NoneFrom z.shape.n flags },
    ghost in_order: { InOrder z.shape.n flags nodes },
    ghost points_are: { PointsAre z.shape nodes points },
    ghost scores_are: { ScoresAre (group_size z.shape) (groups z.shape) (rows z.shape) flags scores },
}

impl Lost {
    // The nodes whose flag is set, of which there are so many.
    fn new(z: Sizes, flags: [bool; 16], count: usize) -> Self
        requires counted { count ≡ count_of z.shape.n (chosen flags) }
        requires few { count ≤ z.shape.r }
        requires none_above { NoneFrom z.shape.n flags }
        ensures { (result.z ≡ z) × (result.flags ≡ flags) × (result.count ≡ count) }
    {
        let nodes = listed(flags, z.shape.n);
        Self {
            z,
            flags,
            count,
            nodes,
            points: points_of(z.shape, nodes),
            scores: scores_of(z.shape, flags),
        }
    }

    // Puts column j of `found` where the node listed at j has its column, among the columns of all m × s nodes.
    fn place(&self, found: &[u8], to: &mut [u8])
        requires found_len { length found.now ≡ self.now.count * self.now.z.l }
        requires to_len { length to.old ≡ self.now.z.m * self.now.z.s * self.now.z.l }
        ensures { Placed self.now.nodes self.now.count self.now.z.l found.now to.old to.new }
    {
        let l = self.z.l;
        for j in 0..self.count {
            let start = self.nodes[j] * l;
            let stop = start + l;
            let at = j * l;
            let end = at + l;
            copy(&found[at..end], &mut to[start..stop]);
        }
    }

    // Corrects the lost columns at the rows that have the score asked for: what the sums of the equations are off by is solved for the lost nodes' weights,
    // and their symbols are corrected by it.
    fn correct_level(&self, level: u8, stripe: &mut [u8])
        requires { length stripe.old ≡ stripe_length self.now.z.shape }
        ensures { LevelCorrected self.now.z.shape self.now.flags self.now.count level stripe.old stripe.new }
    {
        let z = self.z;
        let all = z.shape.r * z.l;
        let end = self.count * z.l;
        let nodes_end = z.m * z.s * z.l;
        let mut sums = [0u8; 1024];
        sums_of(z.shape, stripe, &mut sums[..all]).unwrap();
        let mut found = [0u8; 1024];
        unknowns(
            self.count,
            self.points,
            z.l,
            &sums[..end],
            &mut found[..end],
        )
        .unwrap();
        let mut short = [0u8; 4096];
        self.place(&found[..end], &mut short[..nodes_end]);
        correct_columns(
            z.shape,
            self.flags,
            &self.scores,
            level,
            &short[..nodes_end],
            stripe,
        )
        .unwrap();
    }

    // Fills the lost columns by as many equations as there are lost columns: level by level, a row's score being how many groups have the node lost that its
    // digit names. That is at most as many as are lost, so at most 4, and a level that no row has is left out.
    fn correct_levels(&self, stripe: &mut [u8])
        requires { length stripe.old ≡ stripe_length self.now.z.shape }
        ensures { LevelsCorrected self.now.z.shape self.now.flags self.now.count stripe.old stripe.new }
    {
        for level in 0..5 {
            if any_at(&self.scores[..self.z.l], level) {
                self.correct_level(level, stripe);
            }
        }
    }
}

// Fills the chosen columns by as many equations as there are of them, whatever they hold. A misfit, and nothing written, where the shape isn't accepted, the
// stripe doesn't have n × l bytes, a node above n is chosen or more than r are.
pub fn fill_levels(shape: Shape, flags: [bool; 16], stripe: &mut [u8]) -> Result<(), Misfit>
    ensures { LevelsAre shape flags stripe.old result stripe.new }
{
    let Ok(z) = measure(shape) else {
        return Err(Misfit);
    };
    if stripe.len() != z.stripe_len() {
        return Err(Misfit);
    }
    let count = count_of(flags, z.shape.n);
    if count < count_of(flags, 16) || count > z.shape.r {
        return Err(Misfit);
    }
    Lost::new(z, flags, count).correct_levels(stripe);
    Ok(())
}
