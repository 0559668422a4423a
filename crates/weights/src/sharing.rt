// A node's share of the sums: r for every row, those of t = 0 first.
ghost use Rattle.weights.specs.Promise.{SharesAre, NodeAdded};

use crate::weighing::weigh;
use columns::add_multiple;
use field::times;
use rules::Misfit;

// Adds a node's share to the r sums of every row: its point p to the power t, times its weights. A misfit, and nothing written, where there are more than four
// sums a row or more than 256 weights, or where there aren't r sums for each weight.
pub fn add_shares(sums: &mut [u8], weights: &[u8], p: u8, r: usize) -> Result<(), Misfit>
    ensures { SharesAre r p weights.now sums.old result sums.new }
{
    let l = weights.len();
    if r > 4 || l > 256 || sums.len() != r * l {
        return Err(Misfit);
    }
    let mut q = 1;
    for t in 0..r {
        let start = t * l;
        let stop = start + l;
        add_multiple(&mut sums[start..stop], weights, q);
        q = times(q, p);
    }
    Ok(())
}

// The same for the node at place u of a group of s nodes whose columns of l bytes are lent, end to end; w is what a 1 as the group's digit counts, and a column
// that isn't there reads as 0. A misfit, and nothing written, where w isn't 1 to 256, u isn't below s, s or r is above 4 or l above 256, or where there aren't
// r × l sums.
pub fn add_node(
    sums: &mut [u8],
    group: &[u8],
    s: usize,
    w: usize,
    l: usize,
    u: usize,
    p: u8,
    r: usize,
) -> Result<(), Misfit>
    ensures { NodeAdded s w l u r p group.now sums.old result sums.new }
{
    if w < 1 || w > 256 || u >= s || s > 4 {
        return Err(Misfit);
    }
    if r > 4 || l > 256 || sums.len() != r * l {
        return Err(Misfit);
    }
    let mut weights = [0u8; 256];
    weigh(group, s, w, u, &mut weights[..l]);
    add_shares(sums, &weights[..l], p, r)
}
