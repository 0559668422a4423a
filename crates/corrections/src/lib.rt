// Correcting chosen columns by what the weights of their nodes fall short by: the step from weights to symbols. `correct_columns` takes every input and has
// no `requires`: it answers that what it is given is a misfit, and writes nothing, where there is nothing that it can correct. Functions of the private module
// may have a `requires`; none can be named from outside. What each promises is a record of specs/.
#![tactic(auto)]

mod correcting;

// Corrections of chosen columns at the rows of one score.
pub use correcting::correct_columns;
