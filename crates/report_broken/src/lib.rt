// What is said of a text that is no sheet: its first line that is wrong, and how.
#![tactic(auto)]

pub mod broken;
pub mod byte;
pub mod line;
