// Columns corrected. Functions of this module that have a `requires` can't be named from outside the crate.
ghost use Rattle.std.specs.Prelude.{◌≡◌, length};
ghost use Prim.Native.Nat.{◌≤◌, ◌<◌, ◌+◌, ◌*◌, compare};
ghost use Rattle.columns.specs.Promise.{ByteIs};
ghost use Rattle.corrections.specs.Correction.{correction_by, ColumnsCorrected};
ghost use Rattle.corrections.specs.Promise.{CorrectionsAre};
ghost use Rattle.corrections.specs.Kernel.{ColumnCorrected};

use columns::byte_at;
use field::{double, times};
use rules::{Misfit, Shape, Sizes, measure, worth};

// What is added to the symbol of a lost node at place u, where the row's digit is d: `own` and `other` are what its weight and its mate's fall short by, and
// `paired` says whether its mate is lost too. γ is 2; 142 is the inverse of γ, 244 that of γ + 1.
fn correction(u: usize, d: usize, paired: bool, own: u8, other: u8) -> u8
    ensures { result ≡ correction_by (compare u d) paired own other }
{
    if u == d {
        return own;
    }
    if paired {
        if d < u {
            let scaled = double(own);
            return times(scaled ^ other, 244);
        }
        return times(own ^ other, 244);
    }
    if d < u {
        return own;
    }
    times(own, 142)
}

// Which columns are corrected, by the flags of their nodes, and at which rows: those that have the score asked for.
#[derive(Clone, Copy, Debug, PartialEq, Eq)]
struct Asked<'a> {
    flags: [bool; 16],
    scores: &'a [u8],
    level: u8,
}

// A group of nodes.
#[derive(Clone, Copy, Debug, PartialEq, Eq)]
struct Group<'a> {
    z: Sizes,
    // The group's first node, from 0.
    first: usize,
    // What a 1 as the group's digit counts.
    w: usize,
    // What the weights of the group's nodes fall short by, column by column.
    short: &'a [u8],
    ghost nodes: { first + z.s ≤ 16 },
    ghost worth_some: { 0 < w },
    ghost worth_most: { w ≤ 256 },
}

impl Group<'_> {
    // What the weight of the node at place u falls short by at row a.
    fn short_at(&self, u: usize, a: usize) -> u8
        requires small { (u < 4) × (a ≤ 2048) }
        ensures { ByteIs self.now.short.now (u * self.now.z.l + a) result }
    {
        byte_at(self.short, u * self.z.l + a)
    }

    // Adds the corrections to the column of the node at place u.
    fn correct_column(&self, u: usize, asked: &Asked, column: &mut [u8])
        requires place { u < self.now.z.s }
        requires rows { (length column.old ≡ self.now.z.l) × (self.now.z.l ≤ length asked.now.scores.now) }
        ensures { ColumnCorrected self.now.z.s self.now.w self.now.short.now self.now.first asked.now.flags u asked.now.scores.now asked.now.level column.old column.new }
    {
        // The group's digit of row a, and what the digits below it count. They are carried along, so that no row divides.
        let mut d = 0;
        let mut j = 0;
        for (a, byte) in column.iter_mut().enumerate() {
            if asked.scores[a] == asked.level {
                let own = self.short_at(u, a);
                let other = self.short_at(d, a - d * self.w + u * self.w);
                *byte ^= correction(u, d, asked.flags[self.first + d], own, other);
            }
            j += 1;
            if j == self.w {
                j = 0;
                d += 1;
                if d == self.z.s {
                    d = 0;
                }
            }
        }
    }
}

// Corrects all chosen columns of a stripe. `short` holds what the weights of all m × s nodes fall short by.
fn correct_chosen(z: Sizes, asked: &Asked, short: &[u8], stripe: &mut [u8])
    requires scores_enough { z.l ≤ length asked.now.scores.now }
    requires short_exact { length short.now ≡ z.m * z.s * z.l }
    requires exact { length stripe.old ≡ z.shape.n * z.l }
    ensures { ColumnsCorrected z.shape asked.now.flags asked.now.scores.now asked.now.level short.now stripe.old stripe.new }
{
    let Sizes { s, l, .. } = z;
    for i in 0..z.shape.n {
        if asked.flags[i] {
            let v = i / s;
            let first = v * s;
            let start = i * l;
            let stop = start + l;
            let from = first * l;
            let to = from + s * l;
            let w = worth(z.shape, v + 1);
            let short = &short[from..to];
            let group = Group { z, first, w, short };
            group.correct_column(i % s, asked, &mut stripe[start..stop]);
        }
    }
}

// Corrects the chosen columns of a stripe at the rows that have the score asked for. `scores` has a score for each row, and `short` what the weights of all
// m × s nodes fall short by, column by column. A misfit, and nothing written, where the shape isn't accepted, there are fewer than l scores, `short` doesn't
// have m × s × l bytes or the stripe doesn't have n × l.
pub fn correct_columns(
    shape: Shape,
    flags: [bool; 16],
    scores: &[u8],
    level: u8,
    short: &[u8],
    stripe: &mut [u8],
) -> Result<(), Misfit>
    ensures { CorrectionsAre shape flags scores.now level short.now stripe.old result stripe.new }
{
    let Ok(z) = measure(shape) else {
        return Err(Misfit);
    };
    if scores.len() < z.l || short.len() != z.m * z.s * z.l || stripe.len() != z.shape.n * z.l {
        return Err(Misfit);
    }
    let asked = Asked {
        flags,
        scores,
        level,
    };
    correct_chosen(z, &asked, short, stripe);
    Ok(())
}
