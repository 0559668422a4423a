// The entries of a pack: whether they are there, refusal 7, and the held set.
ghost use Rattle.std.specs.Prelude.{◌≡◌, ◌≤◌, ◌<◌, ◌+◌, length};
ghost use Rattle.entries.specs.Pack.{entry_at, entry_length};
ghost use Rattle.entries.specs.Refusal.{bad_entry};
ghost use Rattle.entries.specs.Promise.{ShorterIs, FirstBadIs, HeldOfIs};

// The length of the header, and of an entry.
pub const HEADER: usize = 8;

pub const ENTRY: usize = 8;

// Is the pack shorter than its header and its entries? A header that isn't there has no entries.
#[tactic(auto, unfolding(crate::specs::Promise::is_shorter, crate::specs::Pack::columns_at, crate::specs::Pack::entry_at))]
pub fn shorter(pack: &[u8]) -> bool
    ensures { ShorterIs pack.now result }
{
    pack.len() < HEADER || pack.len() < HEADER + ENTRY * usize::from(pack[2])
}

// Is entry e's node not 1 to n, or not above the one before, or its padding not 0?
#[tactic(auto, unfolding(crate::specs::Refusal::bad_entry, crate::specs::Parts::padded_in, crate::specs::Parts::node_in, crate::specs::Parts::node_before, crate::specs::Pack::entry_at, rules::specs::Refusal::not_node))]
fn bad_entry(pack: &[u8], e: usize) -> bool
    requires { (e < 256) × (entry_at e + entry_length ≤ length pack.now) }
    ensures { result ≡ bad_entry pack.now e }
{
    let at = HEADER + ENTRY * e;
    let node = pack[at];
    let before = if e == 0 { 0 } else { pack[at - ENTRY] };
    node < 1
        || pack[0] < node
        || node <= before
        || pack[at + 1] != 0
        || pack[at + 2] != 0
        || pack[at + 3] != 0
}

// The first such entry, counted from 1, or none; of a pack that is shorter than its entries the answer is 1.
#[tactic(auto, using(crate::proofs::Checking::entries_there, crate::proofs::Checking::header_there), unfolding(crate::specs::Pack::entry_at))]
pub fn first_bad_entry(pack: &[u8]) -> Option<usize>
    ensures { FirstBadIs pack.now result }
{
    if shorter(pack) {
        return Some(1);
    }
    for e in 0..usize::from(pack[2]) {
        if bad_entry(pack, e) {
            return Some(e + 1);
        }
    }
    None
}

// The set of the entries' nodes: bit i − 1 for node i. The empty set where the pack is shorter than its entries, an entry is bad, or n is above sixteen.
#[tactic(auto, using(crate::proofs::Checking::entries_there, crate::proofs::Checking::header_there, crate::proofs::Checking::unfound_there, crate::proofs::Checking::held_start))]
pub fn held_of(pack: &[u8]) -> u16
    ensures { HeldOfIs pack.now result }
{
    if first_bad_entry(pack).is_some() || 16 < pack[0] {
        return 0;
    }
    let mut held = 0;
    for e in 0..usize::from(pack[2]) {
        let node = pack[HEADER + ENTRY * e];
        held += 1u16 << (node - 1);
    }
    held
}
