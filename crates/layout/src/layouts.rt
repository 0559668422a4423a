// Reading the layout of a pack: all checks but whether its columns can be filled.
ghost use Rattle.layout.specs.Promise.{LayoutMeets};

use crate::answers::Found;
use entries::{ENTRY, HEADER, first_bad_entry, held_of, shorter};
use offsets::{first_wrong_offset, wrong_length, wrong_total};
use rules::{Refusal, Shape, measure};

// How long the largest pack is: a header, sixteen entries, sixteen columns of 256 bytes.
pub const LARGEST_PACK: usize = 4232;

// The shape and the nodes that a pack holds, and where its columns begin.
#[tactic(auto, using(crate::proofs::Checking::total_right, crate::proofs::Checking::offsets_right), unfolding(entries::specs::Refusal::layout_refusal, rules::specs::Refusal::shape_refusal, entries::specs::Promise::is_shorter))]
pub fn read_layout(pack: &[u8]) -> Result<Found, Refusal>
    ensures { LayoutMeets pack.now result }
{
    let &[n, r, p, zero, _, _, _, _, ..] = pack else {
        return Err(Refusal::BadHeader);
    };
    if zero != 0 {
        return Err(Refusal::BadHeader);
    }
    let shape = Shape::new(usize::from(n), usize::from(r));
    let Ok(z) = measure(shape) else {
        return Err(Refusal::BadShape);
    };
    if n < p || shorter(pack) {
        return Err(Refusal::BadHeader);
    }
    if first_bad_entry(pack).is_some() {
        return Err(Refusal::BadEntry);
    }
    let start = HEADER + ENTRY * usize::from(p);
    if wrong_total(pack, start, z.l)
        || first_wrong_offset(pack, start, z.l).is_some()
        || wrong_length(pack)
    {
        return Err(Refusal::BadLayout);
    }
    let held = held_of(pack);
    Ok(Found { shape, held, start })
}
