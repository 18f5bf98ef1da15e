// Limits, lengths and announced headers (document 01, port order 1): what every operation asks before it computes.
#![tactic(auto)]

pub mod announce;
pub mod limits;
