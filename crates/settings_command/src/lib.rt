// What the program `settings` does between its files, on slices and numbers: what its arguments say, the call on a
// store's words, and what is printed of it.
#![tactic(auto)]

pub mod argument;
pub mod asked;
pub mod sentence;
