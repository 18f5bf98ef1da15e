// Texts in lent memory: lines of hex words, read and printed, and what else is printed.
#![tactic(auto)]

pub mod line;
pub mod print;
pub mod refused;
