// Filling chosen columns level by level, by as many equations as there are of them. `fill_levels` takes every input and has no `requires`: it answers that what
// it is given is a misfit, and writes nothing, where there is nothing that it can fill. Functions of the private module may have a `requires`; none can be
// named from outside. What each promises is a record of specs/.
#![tactic(auto)]

mod level;

// Chosen columns by as many equations as there are of them.
pub use level::fill_levels;
