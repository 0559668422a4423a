// Refusal 8, in its order: the total, the offsets, the input's length.
ghost use Rattle.offsets.specs.Kernel.{PlaceableIs};
ghost use Rattle.offsets.specs.Promise.{WrongTotalIs, FirstWrongIs, WrongLengthIs};

use crate::numbers::four_bytes;
use entries::{ENTRY, HEADER, shorter};

// Are the entries there, and can columns of l bytes stand from `start` on? The first begins after 255 entries at most, and has 256 bytes at most.
fn placeable(pack: &[u8], start: usize, l: usize) -> bool
    ensures { PlaceableIs pack.now start l result }
{
    !shorter(pack) && start <= 2048 && l <= 256
}

// Is the total not start + p × l? The first column begins at `start`, each has l bytes. True where columns can't stand so.
#[tactic(auto, using(entries::proofs::Checking::entries_there, entries::proofs::Checking::header_there), unfolding(crate::specs::Promise::wrong_total_by, entries::specs::Parts::total_in))]
pub fn wrong_total(pack: &[u8], start: usize, l: usize) -> bool
    ensures { WrongTotalIs pack.now start l result }
{
    !placeable(pack, start, l) || four_bytes(pack, 4) != start + usize::from(pack[2]) * l
}

// The first entry whose offset isn't where its column begins, counted from 1, or none. The first column begins at `start`, each has l bytes. Where columns
// can't stand so, the answer is 1.
#[tactic(auto, using(entries::proofs::Checking::entries_there, entries::proofs::Checking::header_there), unfolding(crate::specs::Promise::wrong_offset_by, entries::specs::Parts::offset_in, entries::specs::Pack::entry_at))]
pub fn first_wrong_offset(pack: &[u8], start: usize, l: usize) -> Option<usize>
    ensures { FirstWrongIs pack.now start l result }
{
    if !placeable(pack, start, l) {
        return Some(1);
    }
    for e in 0..usize::from(pack[2]) {
        if four_bytes(pack, HEADER + ENTRY * e + 4) != start + e * l {
            return Some(e + 1);
        }
    }
    None
}

// Is the input's length not the total? True where the entries aren't there.
#[tactic(auto, using(entries::proofs::Checking::entries_there, entries::proofs::Checking::header_there), unfolding(entries::specs::Refusal::wrong_length, entries::specs::Parts::total_in))]
pub fn wrong_length(pack: &[u8]) -> bool
    ensures { WrongLengthIs pack.now result }
{
    shorter(pack) || pack.len() != four_bytes(pack, 4)
}
