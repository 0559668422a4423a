// What a test finds. specs/Answer.antt gives document 01's number and values for each case of its answer.

// Where a stripe fails.
#[derive(Clone, Copy, Debug, PartialEq, Eq)]
pub struct Failure {
    // The lowest row that fails.
    pub row: usize,
    // The lowest t that fails in it.
    pub t: usize,
}
