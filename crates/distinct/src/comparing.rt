// Points compared, each with those before it.
ghost use Rattle.distinct.specs.Promise.{ApartIs};

// Do the first `count` points differ? False where there are more than four.
pub fn apart(count: usize, points: [u8; 4]) -> bool
    ensures { ApartIs count points result }
{
    if 4 < count {
        return false;
    }
    for (i, point) in points[..count].iter().enumerate() {
        if points[..i].contains(point) {
            return false;
        }
    }
    true
}
