// Numbers of a pack. The function has a `requires`; it can't be named from outside the crate.
ghost use Rattle.std.specs.Prelude.{◌≡◌, ◌≤◌, ◌+◌, length};
ghost use Rattle.entries.specs.Parts.{number_at};

// The number in the four bytes from `at` on, the lowest first.
#[tactic(auto, unfolding(entries::specs::Parts::number_at))]
pub fn four_bytes(pack: &[u8], at: usize) -> usize
    requires { at + 4 ≤ length pack.now }
    ensures { result ≡ number_at pack.now at }
{
    u32::from_le_bytes([pack[at], pack[at + 1], pack[at + 2], pack[at + 3]]) as usize
}
