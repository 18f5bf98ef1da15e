// Steps of a recipe: step words and the table of kinds, and what a step announces and why it is refused.
#![tactic(auto)]

pub mod gate;
pub mod step;
