// Measuring a shape: document 01, "Shape".
ghost use Rattle.rules.specs.Promise.{MeasuredIs, WorthIs};

use crate::refusals::Refusal;
use crate::shapes::{Shape, Sizes};

// The sizes of a shape; refused where it isn't accepted.
#[tactic(auto, unfolding(crate::specs::Refusal::shape_refusal, crate::specs::Shape::accepted, crate::specs::Shape::rows, crate::specs::Shape::groups, crate::specs::Shape::group_size))]
pub fn measure(shape: Shape) -> Result<Sizes, Refusal>
    ensures { MeasuredIs shape result }
{
    let Shape { n, r } = shape;
    if r < 2 || r > 4 {
        return Err(Refusal::BadShape);
    }
    if n < r + 1 || n > 16 {
        return Err(Refusal::BadShape);
    }
    let s = r;
    let m = n.div_ceil(s);
    let l = s.pow(m as u32);
    if l > 256 {
        return Err(Refusal::BadShape);
    }
    Ok(Sizes {
        shape,
        k: n - r,
        m,
        l,
        s,
    })
}

// What a 1 as digit v of a row counts: s to the power v - 1; 0 where the shape isn't accepted or v isn't 1 to m.
pub fn worth(shape: Shape, v: usize) -> usize
    ensures { WorthIs shape v result }
{
    let Ok(z) = measure(shape) else {
        return 0;
    };
    if v < 1 || v > z.m {
        return 0;
    }
    z.s.pow((v - 1) as u32)
}
