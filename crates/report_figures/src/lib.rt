// The figures of a report: index and coefficient of each stored place, and for one variable the running sum and the
// tail; in columns.
#![tactic(auto)]

pub mod cell;
pub mod line;
