// The scores of rows against the chosen nodes. `over` has a `requires`, and can't be named from outside the crate.
ghost use Rattle.std.specs.Prelude.{◌≡◌, ◌≤◌, ◌/◌};
ghost use Rattle.theory.specs.Score.{score};
ghost use Rattle.theory.specs.Free.{no_group};
ghost use Rattle.corrections.specs.Correction.{chosen};
ghost use Rattle.choices.specs.Promise.{ScoresMeet, AnyIs};

use rules::{Shape, Sizes, measure};

// x divided by the size of a group, which is 2, 3 or 4. A division by a number that the code names is cheap, one by any number dear.
fn over(x: usize, s: usize) -> usize
    requires { (2 ≤ s) × (s ≤ 4) }
    ensures { result ≡ x / s }
{
    match s {
        2 => x / 2,
        3 => x / 3,
        _ => x / 4,
    }
}

// The score of row a: how many of the m groups have the node chosen that the row's digit names.
fn score_of(z: Sizes, flags: [bool; 16], a: usize) -> u8
    ensures { result ≡ score z.s z.m no_group (chosen flags) a }
{
    let s = z.s;
    let mut sum = 0u8;
    let mut rest = a;
    for v in 0..z.m {
        let left = over(rest, s);
        if flags[v * s + (rest - left * s)] {
            sum += 1;
        }
        rest = left;
    }
    sum
}

// The score of each row, and zeros after them. Only zeros where the shape isn't accepted.
pub fn scores_of(shape: Shape, flags: [bool; 16]) -> [u8; 256]
    ensures { ScoresMeet shape flags result }
{
    let mut scores = [0u8; 256];
    let Ok(z) = measure(shape) else {
        return scores;
    };
    for a in 0..z.l {
        scores[a] = score_of(z, flags, a);
    }
    scores
}

// Does some row have that score?
pub fn any_at(scores: &[u8], level: u8) -> bool
    ensures { AnyIs scores.now level result }
{
    scores.contains(&level)
}
