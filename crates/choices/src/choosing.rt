// The chosen nodes, as a number and as a list. Nodes count from 0.
ghost use Rattle.choices.specs.Promise.{CountIs, ListIs, PointsAre};
ghost use Rattle.choices.specs.Kernel.{PointAt};

use columns::lesser;
use rules::{Shape, point};

// How many of the first n nodes are chosen. There are no more than 16.
pub fn count_of(flags: [bool; 16], n: usize) -> usize
    ensures { CountIs n flags result }
{
    flags.iter().take(n).filter(|&&flag| flag).count()
}

// The chosen nodes of the first n, in rising order, and zeros after them. Only zeros where they are more than four.
pub fn listed(flags: [bool; 16], n: usize) -> [usize; 4]
    ensures { ListIs n flags result }
{
    let mut nodes = [0; 4];
    if count_of(flags, n) > 4 {
        return nodes;
    }
    let mut j = 0;
    for i in 0..lesser(n, 16) {
        if flags[i] {
            nodes[j] = i;
            j += 1;
        }
    }
    nodes
}

// The point of each node of a list, or 0 where there is no such node.
pub fn points_of(shape: Shape, nodes: [usize; 4]) -> [u8; 4]
    ensures { PointsAre shape nodes result }
{
    nodes.map(
        |i|
            ensures { PointAt shape i result }
        { point(shape, i.saturating_add(1)) },
    )
}
