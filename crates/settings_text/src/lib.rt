// What the program `settings` reads and prints of a store, on slices: its file, and lines for people.
#![tactic(auto)]

pub mod file;
pub mod line;
pub mod whole;
