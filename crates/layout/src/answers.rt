// What a pack's layout is. specs/Promise.antt says what it means.
use rules::Shape;

// What a well-formed pack holds.
#[derive(Clone, Copy, Debug, PartialEq, Eq)]
pub struct Found {
    pub shape: Shape,
    // The nodes held: bit i − 1 for node i.
    pub held: u16,
    // Where the columns begin, in rising node order without gaps.
    pub start: usize,
}
