// One step of a run: its operation on values that lie among the inputs' coefficients or in the pool. The value goes to
// a part of the pool that overlaps none of them.
// A part of the pool is written only after the operands, which may lie in it too, were read into scratch.
#![tactic(auto)]

pub mod perform;
