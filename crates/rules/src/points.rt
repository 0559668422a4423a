// The points of the sixteen nodes: document 01, "Field, points and γ".
ghost use Rattle.rules.specs.Promise.{PointIs};

use crate::shapes::Shape;

// Point i is entry i - 1.
const POINTS: [u8; 16] = [
    1, 2, 4, 8, 16, 32, 64, 128, 29, 58, 116, 232, 205, 135, 19, 38,
];

// The point of node i; 0 where i isn't 1 to 16, which no loop over the nodes of an accepted shape asks for. The shape is taken for a later rule of
// points, and isn't looked at.
pub fn point(shape: Shape, i: usize) -> u8
    ensures { PointIs shape i result }
{
    if i < 1 || i > 16 {
        return 0;
    }
    POINTS[i - 1]
}
