// What is said of word one, of a step that is refused, and of a sheet that is too large.
#![tactic(auto)]

pub mod announced;
pub mod own;
pub mod place;
pub mod step;
pub mod word_one;
