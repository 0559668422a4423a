// The row solver: the unknowns of one row, by a table of powers of the points. Elimination without pivots makes a triangle of the table: at stage k each row
// past row k gets point k times the row above it, from the last row up, and the numbers given are treated alike. Then back substitution finds the unknowns
// from the last to the first. Everything is four wide; what lies past `count` has no influence on what is found.
ghost use Rattle.systems.specs.Promise.{SolveIs};

use crate::rows::{powers, stage, substituted};
use distinct::apart;

// The unknowns whose sums of powers are the numbers given: for t from 0 to count − 1, the sum of point j to the power t times unknown j is given[t]. Zeros
// where there are more than four points, or two of them are equal.
pub fn solve(count: usize, points: [u8; 4], given: [u8; 4]) -> [u8; 4]
    ensures { SolveIs count points given result }
{
    if !apart(count, points) {
        return [0, 0, 0, 0];
    }
    let first = [0, points[0], points[0], points[0]];
    let second = [0, 0, points[1], points[1]];
    let third = [0, 0, 0, points[2]];
    let rows = stage(stage(stage(powers(points), first), second), third);
    let column = [[given[0]], [given[1]], [given[2]], [given[3]]];
    let sides = stage(stage(stage(column, first), second), third);
    substituted(count, rows, sides)
}
