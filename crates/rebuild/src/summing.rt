// The running sums: what the helpers' fractions bring to the equations of the rows read, helper by helper in rising node order. Functions that have a
// `requires` can't be named from outside the crate.
ghost use Rattle.std.specs.Prelude.{◌≡◌, ◌≢◌, ◌≤◌, ◌+◌, ◌-◌, ◌*◌, length};
ghost use Rattle.rules.specs.Fraction.{fraction_length, fraction_of, helper_before};
ghost use Rattle.rebuild.specs.Kernel.{SumsAre};

use fractions::add_fraction;
use rules::Sizes;

// How many fractions stand before that of node i, which isn't the failed one.
#[tactic(auto, unfolding(rules::specs::Fraction::helper_before))]
fn helper_before(failed: usize, i: usize) -> usize
    requires nodes { (1 ≤ failed) × (1 ≤ i) }
    requires other { i ≢ failed }
    ensures { result ≡ helper_before failed i }
{
    if i < failed { i - 1 } else { i - 2 }
}

// What all nodes but the failed one give, end to end in rising node order.
#[derive(Clone, Copy, Debug, PartialEq, Eq)]
pub struct Given<'a> {
    pub z: Sizes,
    pub failed: usize,
    pub bytes: &'a [u8],
    ghost first: { 1 ≤ failed },
    ghost last: { failed ≤ z.shape.n },
    ghost exact: { length bytes.now ≡ (z.shape.n - 1) * fraction_length z.shape },
}

impl Given<'_> {
    // The fraction of node i.
    fn fraction(&self, i: usize) -> &[u8]
        requires node { (1 ≤ i) × (i ≤ self.now.z.shape.n) }
        requires other { i ≢ self.now.failed }
        ensures is { result.now ≡ fraction_of self.now.z.shape self.now.failed self.now.bytes.now i }
        ensures exact { length result.now ≡ fraction_length self.now.z.shape }
    {
        let size = self.z.fraction_len();
        let start = helper_before(self.failed, i) * size;
        let stop = start + size;
        &self.bytes[start..stop]
    }

    // Adds what node i brings to the sums of the helpers before it. The failed node brings nothing.
    #[tactic(auto, unfolding(fractions::specs::Refusal::add_refusal, rules::specs::Refusal::shape_refusal, rules::specs::Refusal::not_node))]
    fn add_helper(&self, i: usize, sums: &mut [u8])
        requires node { (1 ≤ i) × (i ≤ self.now.z.shape.n) }
        requires sums_are { SumsAre self.now.z.shape self.now.failed self.now.bytes.now i sums.old }
        ensures { SumsAre self.now.z.shape self.now.failed self.now.bytes.now (i + 1) sums.new }
    {
        if i == self.failed {
            return;
        }
        add_fraction(self.z.shape, i, self.failed, self.fraction(i), sums).unwrap();
    }

    // Adds what all helpers bring.
    pub fn add_all(&self, sums: &mut [u8])
        requires { SumsAre self.now.z.shape self.now.failed self.now.bytes.now 1 sums.old }
        ensures { SumsAre self.now.z.shape self.now.failed self.now.bytes.now (self.now.z.shape.n + 1) sums.new }
    {
        for i in 1..=self.z.shape.n {
            self.add_helper(i, sums);
        }
    }
}
