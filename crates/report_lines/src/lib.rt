// The report of a sheet in plain text, line by line: what a place is, what limits cut off it, what decides the limits
// of the answer, and whether it is whole.
#![tactic(auto)]

pub mod cuts;
pub mod ends;
pub mod lines;
pub mod put;
pub mod why;
