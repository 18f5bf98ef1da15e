// Numbers as people read and type them (docs/REFERENCE.md, section 10): the plain data. What it means is in specs/, and
// no laws.
#![tactic(auto)]

// What a text is read as: a number, or none.
pub type Read = Option<f64>;
