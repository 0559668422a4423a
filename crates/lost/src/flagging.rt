// Nodes as flags. Nodes count from 0.
ghost use Rattle.std.specs.Prelude.{◌≡◌, ◌<◌, ℕ, suc, false, slice_index_or, ◌&&◌, ltb, leb};
ghost use Rattle.rules.specs.Lost.{is_lost};
ghost use Rattle.lost.specs.Promise.{FlagsAre, OthersAre};

// The flag of each of the sixteen nodes that there can be.
fn flags_by<F: Fn(usize) -> bool>(is: F) -> [bool; 16]
    requires { (i : ℕ) → i < 16 → F.pre is i }
    ensures { (i : ℕ) → i < 16 → F.post is i (slice_index_or result i false) }
{
    let mut flags = [false; 16];
    for (i, flag) in flags.iter_mut().enumerate() {
        *flag = is(i);
    }
    flags
}

// The flags of a lost set: bit i for node i.
#[tactic(auto, unfolding(rules::specs::Lost::is_lost))]
pub fn flags_of(lost: u16) -> [bool; 16]
    ensures { FlagsAre (is_lost lost) result }
{
    flags_by(
        |i|
            requires { i < 16 }
            ensures { result ≡ is_lost lost (suc i) }
        { (lost >> i) % 2 == 1 },
    )
}

// The flags of the parity nodes: k to n − 1.
pub fn parity_flags(k: usize, n: usize) -> [bool; 16]
    ensures { FlagsAre (λ i. ltb k i && leb i n) result }
{
    flags_by(
        |i|
            ensures { result ≡ (ltb k (suc i) && leb (suc i) n) }
        { k <= i && i < n },
    )
}

// The flags of the other nodes.
pub fn others_of(flags: [bool; 16]) -> [bool; 16]
    ensures { OthersAre flags result }
{
    flags.map(|flag| !flag)
}
