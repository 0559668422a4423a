// The weights of a group's nodes. `weigh` has a `requires`, and can't be named from outside the crate. specs/Kernel.antt says every byte that it writes.
ghost use Rattle.std.specs.Prelude.{◌≡◌, ◌≤◌, ◌<◌, length};
ghost use Prim.Native.Nat.{compare};
ghost use Rattle.rules.specs.Equation.{weighed};
ghost use Rattle.weights.specs.Kernel.{Weighed};

use columns::byte_at;
use field::double;

// The weight by its three cases: u is the node's place, d the row's digit. γ is 2.
fn coupled(u: usize, d: usize, own: u8, other: u8) -> u8
    ensures { result ≡ weighed (compare u d) own other }
{
    if u == d {
        own
    } else if d < u {
        own ^ other
    } else {
        double(own) ^ other
    }
}

// The weights, at all rows, of the node at place u of a group of s nodes whose columns stand end to end in `group`; w is what a 1 as the
// group's digit counts. `weights` has a byte for each row, and a column that isn't there reads as 0. A division is dear: the digit d of row a, and how
// far the row is past the last change of it, j, are carried along.
pub fn weigh(group: &[u8], s: usize, w: usize, u: usize, weights: &mut [u8])
    requires w_nonzero { (0 < w) × (w ≤ 256) }
    requires u_lt_s { (u < s) × (s ≤ 4) }
    requires weights_len_bound { length weights.old ≤ 256 }
    ensures { Weighed s w group.now u weights.old weights.new }
{
    let l = weights.len();
    let mut d = 0;
    let mut j = 0;
    for (a, weight) in weights.iter_mut().enumerate() {
        let own = byte_at(group, u * l + a);
        let other = byte_at(group, d * l + (a - d * w + u * w));
        *weight = coupled(u, d, own, other);
        if j + 1 < w {
            j += 1;
        } else if d + 1 < s {
            d += 1;
            j = 0;
        } else {
            d = 0;
            j = 0;
        }
    }
}
