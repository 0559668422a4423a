// What an entry checks after the shape: lengths, and the numbers of nodes. Each check refuses with its number and does nothing else.
ghost use Rattle.std.specs.Prelude.{◌≡◌, ◌≤◌, ◌↔◌, IsOk, IsOkUnless, OnOk, length, false};
ghost use Rattle.rules.specs.Fraction.{fraction_length};
ghost use Rattle.rules.specs.Refusal.{not_node};
ghost use Rattle.rules.specs.Stripe.{stripe_length, data_length};

use crate::refusals::Refusal;
use crate::shapes::Sizes;

impl Sizes {
    // How many bytes a stripe has.
    #[tactic(auto, unfolding(crate::specs::Stripe::stripe_length))]
    pub fn stripe_len(self) -> usize
        ensures is { result ≡ stripe_length self.shape }
        ensures most { result ≤ 4096 }
    {
        self.shape.n * self.l
    }

    // How many bytes the data columns have, which are the first of a stripe.
    #[tactic(auto, unfolding(crate::specs::Stripe::stripe_length, crate::specs::Stripe::data_length))]
    pub fn data_len(self) -> usize
        ensures is { result ≡ data_length self.shape }
        ensures within { result ≤ stripe_length self.shape }
    {
        self.k * self.l
    }

    // How many bytes a fraction has.
    #[tactic(auto, unfolding(crate::specs::Fraction::fraction_length))]
    pub fn fraction_len(self) -> usize
        ensures is { result ≡ fraction_length self.shape }
        ensures most { result ≤ 128 }
    {
        self.l / self.s
    }

    // Refused unless i is a node, 1 to n.
    #[tactic(auto, unfolding(crate::specs::Refusal::not_node))]
    pub fn check_node(self, i: usize) -> Result<(), Refusal>
        ensures when { IsOk result ↔ (not_node self.shape i ≡ false) }
        ensures inside { OnOk result ((1 ≤ i) × (i ≤ self.shape.n)) }
        ensures only { IsOkUnless result Refusal.BadNode }
    {
        if i < 1 || i > self.shape.n {
            return Err(Refusal::BadNode);
        }
        Ok(())
    }
}

// Refused unless a buffer has exactly `size` bytes.
pub fn check_len(buffer: &[u8], size: usize) -> Result<(), Refusal>
    ensures when { IsOk result ↔ (length buffer.now ≡ size) }
    ensures only { IsOkUnless result Refusal.BadLength }
{
    if buffer.len() != size {
        return Err(Refusal::BadLength);
    }
    Ok(())
}
